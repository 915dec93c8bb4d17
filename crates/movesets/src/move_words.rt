// The words of a move, its control word first.
ghost use Rattle.std.specs.Prelude.{◌≡◌, ◌+◌, ◌^◌, ◌<◌, ◌≤◌, length, MatchResult, Some};
ghost use Rattle.words.specs.Words.{on};
ghost use Rattle.blocks.specs.Directory.{word_at};
ghost use Rattle.blocks.specs.Questions.{answer};
ghost use Rattle.movesets.specs.Control.{control_right, move_length};
ghost use Rattle.movesets.specs.Movesets.{control_questions, next_start};

use words::{AxisWords, Bit, Fault, Question, Word, WordPair};

// The words of a move in its block: those from `start` on, all of which are there.
#[derive(Clone, Copy)]
pub(crate) struct MoveWords<'a> {
    block: AxisWords<'a>,
    start: usize,
    // the last of them is there
    ghost complete: { start + move_length (word_at block.words.now start) ≤ length block.words.now },
    // and any index of a word is a usize
    ghost counted: { length block.words.now < 2 ^ 64 },
}

impl<'a> MoveWords<'a> {
    // The move at `start`, if its control word is right and all of its words are there.
    pub(crate) fn new(block: AxisWords<'a>, start: usize) -> Result<MoveWords<'a>, Fault>
        ensures { MatchResult result
            (λ m. (m.block ≡ block.entry) × (m.start ≡ start) × (Ok (tt {0}) ≡ answer (control_questions block.entry.words.now (Some block.entry.axis) start) (tt {0})))
            (λ e. Err e ≡ answer (control_questions block.entry.words.now (Some block.entry.axis) start) (tt {0})) }
    {
        let missing = Question::Length.refused(block.axis, 0);
        let control = block.word(start).ok_or(missing)?;
        if !control_right(control) {
            return Err(Question::Control.refused(block.axis, start));
        }
        if block.words.len() - start < move_length(control) {
            return Err(missing);
        }
        Ok(MoveWords { block, start })
    }

    // The word of that index in the move. blocks has the same for a record, `RecordWords::word`, kept to that crate because it asks that
    // the word is there, and no public function asks anything.
    pub(crate) fn word(&self, index: usize) -> Word
        requires { index < move_length (word_at self.now.block.words.now self.now.start) }
        ensures { result ≡ record { bits = word_at self.now.block.words.now (self.now.start + index); axis = self.now.block.axis; index = self.now.start + index } }
    {
        self.block.word(self.start + index).unwrap()
    }

    // Whether that bit of the control word is on.
    pub(crate) fn has(&self, which: Bit) -> bool
        ensures { result ≡ on which (word_at self.now.block.words.now self.now.start) }
    {
        self.word(0).has(which)
    }

    // The two words behind the control word.
    pub(crate) fn pair(&self) -> WordPair
        ensures first { result.first ≡ record { bits = word_at self.now.block.words.now (self.now.start + 1); axis = self.now.block.axis; index = self.now.start + 1 } }
        ensures second { result.second ≡ record { bits = word_at self.now.block.words.now (self.now.start + 2); axis = self.now.block.axis; index = self.now.start + 2 } }
    {
        self.block.pair(self.start + 1).unwrap()
    }

    // Where the words behind the move start.
    pub(crate) fn end(&self) -> usize
        ensures { result ≡ next_start self.now.block.words.now self.now.start }
    {
        self.start + move_length(self.word(0))
    }
}

// Whether the bits of a control word are right. Bits 0 to 7 are off in all of them.
fn control_right(control: Word) -> bool
    ensures { result ≡ control_right control.bits }
{
    control.bits % 256 == 0
        && control.has(Bit::B12)
        && control.has(Bit::B13)
        && !control.has(Bit::B14)
        && !(control.has(Bit::B11) && control.has(Bit::B15))
}

// How many words the move has.
fn move_length(control: Word) -> usize
    ensures { result ≡ move_length control.bits }
{
    if control.has(Bit::B15) { 4 } else { 3 }
}
