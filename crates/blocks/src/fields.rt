// The fields of a record: values of one or more words each, one behind the other.
ghost use Rattle.std.specs.Prelude.{◌≡◌, ℕ, ◌+◌, ◌*◌, ◌<◌, ◌≤◌, List, Option, length, Some};
ghost use Rattle.words.specs.declared.axis.AxisId.{AxisId};
ghost use Rattle.blocks.specs.Fields.{word_for, fields_digits, fields_from};
ghost use Rattle.blocks.specs.Numbers.{number, number_digits};
ghost use Rattle.blocks.specs.Positions.{position, position_digits};
ghost use Rattle.blocks.specs.Questions.{Asked, answer};

use words::{AxisWords, Fault, Word, WordPair};

// The words of a record: those of its block, read for its axis, from `start` on. What is asked of their number differs with
// each reader, by the words that it reads.
#[derive(Clone, Copy)]
pub(crate) struct RecordWords<'a> {
    pub block: AxisWords<'a>,
    pub start: usize,
}

impl RecordWords<'_> {
    // The word of that index in the record.
    pub(crate) fn word(self, index: usize) -> Word
        requires { self.start + index < length self.block.words.now }
        ensures { result ≡ word_for self.entry.block.words.now self.entry.block.axis (self.entry.start + index) }
    {
        let index = self.start + index;
        // Straight from the slice: `AxisWords::word` asks once more whether the word is there, which cost the readers of parameters and
        // presets a third more time.
        Word {
            bits: self.block.words[index],
            axis: self.block.axis,
            index,
        }
    }

    // That word and the next one.
    pub(crate) fn pair(self, index: usize) -> WordPair
        requires { self.start + index + 1 < length self.block.words.now }
        ensures { result ≡ record { first = word_for self.entry.block.words.now self.entry.block.axis (self.entry.start + index); second = word_for self.entry.block.words.now self.entry.block.axis (self.entry.start + index + 1) } }
    {
        WordPair {
            first: self.word(index),
            second: self.word(index + 1),
        }
    }
}

// A value that one or more words of a record spell.
pub(crate) trait Field: Copy + Default {
    // How many words.
    const WORDS: usize;

    ghost WORDS: { ℕ };

    // The questions about the digits of the words from an index of the record on.
    ghost digits: { List ℕ → Option AxisId → ℕ → ℕ → List Asked };

    // The value that these words spell.
    ghost value: { List ℕ → ℕ → ℕ → Self };

    fn read(words: RecordWords, index: usize) -> Result<Self, Fault>
        requires { words.start + (index + WORDS) ≤ length words.block.words.now }
        ensures { result ≡ answer (digits words.entry.block.words.now (Some words.entry.block.axis) words.entry.start index) (value words.entry.block.words.now words.entry.start index) };
}

// A number of four digits.
impl Field for u16 {
    const WORDS: usize = 1;

    ghost WORDS = { 1 };

    ghost digits = { λ ws axis at i. number_digits ws axis at i 1 };

    ghost value = { number };

    fn read(words: RecordWords, index: usize) -> Result<u16, Fault> {
        words.word(index).four_digits()
    }
}

// A position that has no incremental mark.
impl Field for i32 {
    const WORDS: usize = 2;

    ghost WORDS = { 2 };

    ghost digits = { λ ws axis at i. position_digits ws axis at i 1 };

    ghost value = { position };

    fn read(words: RecordWords, index: usize) -> Result<i32, Fault> {
        words.pair(index).read_position()
    }
}

// The N fields whose words run on from the index `first` of the record.
#[tactic(auto, using(crate::proofs::FieldsRead::field_no, crate::proofs::FieldsRead::field_ok))]
pub(crate) fn read_fields<T: Field, const N: usize>(
    words: RecordWords,
    first: usize,
) -> Result<[T; N], Fault>
    requires { words.start + (first + N * T.WORDS) ≤ length words.block.words.now }
    ensures { result ≡ answer (fields_digits (T.digits words.entry.block.words.now (Some words.entry.block.axis) words.entry.start) T.WORDS first N) (fields_from (T.value words.entry.block.words.now words.entry.start) T.WORDS first N) }
{
    let mut fields = [T::default(); N];
    for (i, field) in fields.iter_mut().enumerate() {
        *field = T::read(words, first + i * T::WORDS)?;
    }
    Ok(fields)
}
