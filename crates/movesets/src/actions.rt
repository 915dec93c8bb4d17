// What the words of a move say.
ghost use Rattle.std.specs.Prelude.{◌≡◌, Some};
ghost use Rattle.blocks.specs.Questions.{answer};
ghost use Rattle.movesets.specs.Actions.{local_questions, local_feedrate, travel_questions, travel_action, preset_questions, preset_action, dwell_questions, dwell_action, action_questions, action_of};
ghost use Rattle.movesets.specs.Movesets.{move_of};

use crate::move_words::MoveWords;
use blocks::RATE_MAX;
use moves::{Action, Move, Travel};
use words::{Bit, Fault, Question};

// The shortest and the longest dwell, in milliseconds.
const DWELL_MIN: u32 = 20;

const DWELL_MAX: u32 = 9_999_990;

impl MoveWords<'_> {
    // The move, as its words spell it.
    #[tactic(auto, using(crate::proofs::Turns::move_no, crate::proofs::Turns::move_ok))]
    pub(crate) fn read_move(&self) -> Result<Move, Fault>
        ensures { result ≡ answer (action_questions self.now.block.words.now (Some self.now.block.axis) self.now.start) (move_of self.now.block.words.now self.now.start) }
    {
        Ok(Move {
            action: self.read_action()?,
            halt: self.has(Bit::B16),
            continuous: self.has(Bit::B17),
        })
    }

    // What the move does, by the kind that its control word names.
    #[tactic(auto, unfolding(crate::specs::Actions::action_questions, crate::specs::Actions::action_of))]
    fn read_action(&self) -> Result<Action, Fault>
        ensures { result ≡ answer (action_questions self.now.block.words.now (Some self.now.block.axis) self.now.start) (action_of self.now.block.words.now self.now.start) }
    {
        match (self.has(Bit::B11), self.has(Bit::B10)) {
            (true, true) => self.read_dwell_action(),
            (true, false) => self.read_preset_action(),
            (false, _) => self.read_travel_action(),
        }
    }

    // A dwell, whose range is asked at its first word.
    fn read_dwell_action(&self) -> Result<Action, Fault>
        ensures { result ≡ answer (dwell_questions self.now.block.words.now (Some self.now.block.axis) self.now.start) (dwell_action self.now.block.words.now self.now.start) }
    {
        let pair = self.pair();
        let time = pair.read_dwell()?;
        if !(DWELL_MIN..=DWELL_MAX).contains(&time) {
            return Err(Question::Range.refused(pair.first.axis, pair.first.index));
        }
        Ok(Action::Dwell(time))
    }

    // A preset, whose position has no incremental mark.
    fn read_preset_action(&self) -> Result<Action, Fault>
        ensures { result ≡ answer (preset_questions self.now.block.words.now (Some self.now.block.axis) self.now.start) (preset_action self.now.block.words.now self.now.start) }
    {
        self.pair().read_position().map(Action::Preset)
    }

    // A move or a move with offset.
    #[tactic(auto, unfolding(crate::specs::Actions::local_questions, crate::specs::Actions::local_feedrate))]
    fn read_travel_action(&self) -> Result<Action, Fault>
        ensures { result ≡ answer (travel_questions self.now.block.words.now (Some self.now.block.axis) self.now.start) (travel_action self.now.block.words.now self.now.start) }
    {
        Ok(Action::Travel(Travel {
            target: self.pair().read_target()?,
            with_offset: self.has(Bit::B10),
            feedrate: self.read_local_feedrate()?,
        }))
    }

    // The local feedrate, if bit 15 of the control word says that there is one.
    #[tactic(auto, unfolding(crate::specs::Actions::local_questions, crate::specs::Actions::local_feedrate))]
    fn read_local_feedrate(&self) -> Result<Option<u16>, Fault>
        ensures { result ≡ answer (local_questions self.now.block.words.now (Some self.now.block.axis) self.now.start) (local_feedrate self.now.block.words.now self.now.start) }
    {
        if !self.has(Bit::B15) {
            return Ok(None);
        }
        let word = self.word(3);
        let feedrate = word.four_digits()?;
        if !(1..=RATE_MAX).contains(&feedrate) {
            return Err(Question::Range.refused(word.axis, word.index));
        }
        Ok(Some(feedrate))
    }
}
