// The directory of a block, read.
ghost use Rattle.std.specs.Prelude.{◌≡◌, ◌+◌, ◌*◌, ◌<◌, ◌≤◌, length, IfOk, None, OnOk};
ghost use Rattle.words.specs.Faults.{axis_number};
ghost use Rattle.blocks.specs.Questions.{answer};
ghost use Rattle.blocks.specs.Directory.{record_count, records_start, count_questions, pair_questions, axis_questions, block_end, starts, start_of, starts_by_axis, directory_questions, record_length, Inside, StartsInside};

use crate::kinds::Kind;
use crate::records::Starts;
use words::{AxisId, ByAxis, Fault, Question};

// A no that names no axis.
fn unnamed(question: Question, word: usize) -> Fault
    ensures { result ≡ record { question = question; axis = None; word = word } }
{
    Fault {
        question,
        axis: None,
        word,
    }
}

// The number of records, whose directory is there.
fn read_count(words: &[u16], kind: Kind) -> Result<usize, Fault>
    ensures value { result ≡ answer (count_questions kind words.now) (record_count words.now) }
    ensures few { IfOk result (λ n. (n ≡ record_count words.now) × (n ≤ 3) × (records_start n ≤ length words.now)) }
{
    if words.len() < 2 || words[0] != kind.number() {
        return Err(unnamed(Question::Kind, 0));
    }
    let count = usize::from(words[1]);
    if !(1..=3).contains(&count) {
        return Err(unnamed(Question::Directory, 1));
    }
    if words.len() < 2 + 2 * count {
        return Err(unnamed(Question::Directory, 0));
    }
    Ok(count)
}

// The directory of a block that has as many records as `count` says.
#[derive(Clone, Copy)]
struct Directory<'a> {
    words: &'a [u16],
    count: usize,
    record_length: usize,
    ghost counted: { count ≡ record_count words.now },
    ghost few: { count ≤ 3 },
    ghost there: { records_start count ≤ length words.now },
    ghost not_empty: { 0 < record_length },
    ghost short: { record_length ≤ 17 },
}

impl Directory<'_> {
    // Where the record of a number, counted from 0, starts; for the number of records, where the last of them ends.
    fn record_start(self, number: usize) -> usize
        requires { number ≤ self.count }
        ensures { result ≡ records_start self.entry.count + number * self.entry.record_length }
    {
        2 + 2 * self.count + number * self.record_length
    }

    // Whether the pairs of the directory and the end of the block are right.
    #[tactic(auto, using(crate::proofs::Starts::pairs_step, crate::proofs::Starts::pairs_end, crate::proofs::Starts::block_end_is))]
    fn check_pairs(self) -> Result<(), Fault>
        ensures value { result ≡ answer (pair_questions self.entry.record_length self.entry.words.now) tt }
        ensures ends { OnOk result (length self.entry.words.now ≡ block_end self.entry.record_length self.entry.words.now) }
    {
        // Chunks would be counted by enumerate, for the index that a refusal names, and each be shown to have its words.
        for i in 0..self.count {
            let pair = 2 + 2 * i;
            if usize::from(self.words[pair]) != self.record_start(i) {
                return Err(unnamed(Question::Pairs, pair));
            }
            if usize::from(self.words[pair + 1]) != self.record_length {
                return Err(unnamed(Question::Pairs, pair + 1));
            }
        }
        if self.words.len() != self.record_start(self.count) {
            return Err(unnamed(Question::Pairs, 0));
        }
        Ok(())
    }

    // Whether the axis words are 1 to 3 and rise.
    #[tactic(auto, using(crate::proofs::Starts::axes_step, crate::proofs::Starts::inside_block))]
    fn check_axes(self) -> Result<(), Fault>
        requires { length self.words.now ≡ block_end self.record_length self.words.now }
        ensures { result ≡ answer (axis_questions self.entry.record_length self.entry.words.now) tt }
    {
        let mut above = 0;
        // Chunks would be counted by enumerate, for the index that a refusal names, and each be shown to have its words.
        for i in 0..self.count {
            let start = self.record_start(i);
            // A number, since the word names an axis only once it is right.
            let axis = self.words[start];
            if axis <= above || axis > 3 {
                return Err(unnamed(Question::Axis, start));
            }
            above = axis;
        }
        Ok(())
    }

    // Where the record of an axis starts.
    #[tactic(auto, using(crate::proofs::Starts::start_of_step, crate::proofs::Starts::inside_block))]
    fn start_of(self, axis: AxisId) -> Option<usize>
        requires { length self.words.now ≡ block_end self.record_length self.words.now }
        ensures value { result ≡ start_of self.entry.words.now (axis_number axis) (starts self.entry.record_length self.entry.words.now) }
        ensures inside { Inside self.entry.record_length self.entry.words.now result }
    {
        // Tried: find over the starts; the proof that its closure looks inside the words did not close.
        for i in 0..self.count {
            let start = self.record_start(i);
            if self.words[start] == u16::from(axis.number()) {
                return Some(start);
            }
        }
        None
    }
}

// Where the record of each axis starts in a block of the kind, once pairs, end and axis words are right.
pub(crate) fn read_directory(words: &[u16], kind: Kind) -> Result<Starts, Fault>
    ensures value { result ≡ answer (directory_questions kind words.now) (starts_by_axis (record_length kind) words.now) }
    ensures inside { IfOk result (StartsInside (record_length kind) words.now) }
{
    let directory = Directory {
        words,
        count: read_count(words, kind)?,
        record_length: kind.record_length(),
    };
    directory.check_pairs()?;
    directory.check_axes()?;
    Ok(ByAxis {
        one: directory.start_of(AxisId::One),
        two: directory.start_of(AxisId::Two),
        three: directory.start_of(AxisId::Three),
    })
}
