// Movesets: a block for one axis, up to 21 moves one behind the other.
ghost use Rattle.std.specs.Prelude.{◌≡◌, ◌≤◌, length, IfOk, OnOk, Some};
ghost use Rattle.blocks.specs.Numbers.{filled};
ghost use Rattle.blocks.specs.Questions.{answer};
ghost use Rattle.movesets.specs.Movesets.{moves_asked, moves_from, move_count, count_questions, moveset_questions, moveset_of};

use crate::move_words::MoveWords;
use moves::{Action, MOVES_MAX, Move, Moveset, Travel};
use words::{AxisId, AxisWords, Fault, Question, Target};

// Word 0 is this and the number of moves.
const COUNT_BASE: u16 = 512;

// The most words that a moveset may have.
const WORDS_MAX: usize = 64;

// What a slot holds that has no move of the block.
const UNUSED: Move = Move {
    action: Action::Travel(Travel {
        target: Target::Absolute(0),
        with_offset: false,
        feedrate: None,
    }),
    halt: false,
    continuous: false,
};

// The moveset of an axis that a block holds, or its first no.
pub fn read_moveset(words: &[u16], axis: AxisId) -> Result<Moveset, Fault>
    ensures { result ≡ answer (moveset_questions words.now (Some axis)) (moveset_of words.now) }
{
    let block = AxisWords { words, axis };
    let count = read_count(block)?;
    let mut moves = [UNUSED; MOVES_MAX];
    read_moves(block, &mut moves[..count])?;
    Ok(Moveset {
        moves,
        count: count as u8,
    })
}

// The number of moves, 1 to 21.
fn read_count(block: AxisWords) -> Result<usize, Fault>
    ensures value { result ≡ answer (count_questions block.entry.words.now (Some block.entry.axis)) (move_count block.entry.words.now) }
    ensures few { IfOk result (λ n. n ≤ 21) }
{
    let wrong = Question::Kind.refused(block.axis, 0);
    let first = block.word(0).ok_or(wrong)?.bits;
    if !(COUNT_BASE + 1..=COUNT_BASE + MOVES_MAX as u16).contains(&first) {
        return Err(wrong);
    }
    Ok(usize::from(first - COUNT_BASE))
}

// The moves of the block, one for each slot in their order, behind which the block ends.
fn read_moves(block: AxisWords, slots: &mut [Move]) -> Result<(), Fault>
    ensures value { result ≡ answer (moves_asked block.entry.words.now (Some block.entry.axis) 1 (length slots.old)) tt }
    ensures read { OnOk result (slots.new ≡ filled slots.old 0 (moves_from block.entry.words.now 1 (length slots.old))) }
{
    let mut at = 1;
    for slot in slots.iter_mut() {
        let words = MoveWords::new(block, at)?;
        *slot = words.read_move()?;
        at = words.end();
    }
    check_end(block, at)
}

// Whether the block ends with its moves, at `at`, and within its greatest length.
fn check_end(block: AxisWords, at: usize) -> Result<(), Fault>
    ensures { result ≡ answer (moves_asked block.entry.words.now (Some block.entry.axis) at 0) tt }
{
    let length = block.words.len();
    if length > at {
        return Err(Question::Length.refused(block.axis, at));
    }
    if length > WORDS_MAX {
        return Err(Question::Length.refused(block.axis, WORDS_MAX));
    }
    Ok(())
}
