// Blocks with a directory: one reader for all of their kinds.
ghost use Rattle.std.specs.Prelude.{◌≡◌, ℕ, ◌+◌, ◌^◌, ◌<◌, ◌≤◌, List, Option, length, Some};
ghost use Rattle.words.specs.declared.axis.AxisId.{AxisId};
ghost use Rattle.blocks.specs.declared.kinds.Kind.{Kind};
ghost use Rattle.blocks.specs.Blocks.{block_questions, block_records};
ghost use Rattle.blocks.specs.Directory.{record_length, Inside, StartsInside};
ghost use Rattle.blocks.specs.Questions.{Asked, answer};
ghost use Rattle.blocks.specs.Records.{at_start, by_axis, record_from, records_from, of_record, revalued, by_record, all_revalued, Room, Rooms};

use crate::directory::read_directory;
use crate::fields::RecordWords;
use crate::kinds::Kind;
use crate::records::{Record, Records, Starts};
use crate::turns::try_by_axis;
use words::{AxisId, AxisWords, Fault};

// A kind of block: how its records are read, and how what they say is checked.
pub(crate) trait Block {
    // What the words of a record spell, its ranges not asked yet.
    type Written: Copy;

    // What a record says.
    type Value: Copy;

    const KIND: Kind;

    ghost KIND: { Kind };

    // The questions about the digits of the record of an axis that starts at a word.
    ghost digits: { List ℕ → Option AxisId → ℕ → List Asked };

    // What its words spell.
    ghost written: { List ℕ → ℕ → Self.Written };

    // The questions about the relations and the ranges of what they spell.
    ghost ranges: { Self → Option AxisId → Self.Written → ℕ → List Asked };

    // What it says.
    ghost value: { Self.Written → Self.Value };

    // What the words of a record spell, once their digits are right.
    fn read(words: RecordWords) -> Result<Self::Written, Fault>
        requires { words.start + record_length KIND ≤ length words.block.words.now }
        ensures { result ≡ answer (digits words.entry.block.words.now (Some words.entry.block.axis) words.entry.start) (written words.entry.block.words.now words.entry.start) };

    // What the record at `start` says, once the values that it spells are in range.
    fn check(&self, axis: AxisId, start: usize, values: Self::Written) -> Result<Self::Value, Fault>
        requires { start + 17 < 2 ^ 64 }
        ensures { result ≡ answer (ranges self.now (Some axis) values start) (value values) };
}

// What a block says for its axes, or its first no. The digits of all records are asked before any range.
pub(crate) fn read_block<B: Block>(block: &B, words: &[u16]) -> Result<Records<B::Value>, Fault>
    ensures { result ≡ answer (block_questions B.KIND B.digits B.written (B.ranges block.now) words.now) (block_records B.KIND (λ at. B.value (B.written words.now at)) words.now) }
{
    let starts = read_directory(words, B::KIND)?;
    let written = read_records::<B>(words, starts)?;
    check_records(block, written)
}

// What the words of the records spell, once their digits are right.
#[tactic(auto, using(crate::proofs::Passes::start_no, crate::proofs::Passes::start_ok))]
fn read_records<B: Block>(words: &[u16], starts: Starts) -> Result<Records<B::Written>, Fault>
    requires { StartsInside (record_length B.KIND) words.now starts }
    ensures { result ≡ answer (by_axis (B.digits words.now) starts) (records_from (B.written words.now) starts) }
{
    try_by_axis(
        starts,
        |axis, start: Option<usize>| -> Result<Option<Record<B::Written>>, Fault>
            requires { Inside (record_length B.KIND) words.now start }
            ensures { result ≡ answer (at_start (B.digits words.entry.now (Some axis)) start) (record_from (B.written words.entry.now) start) }
        {
            let Some(word) = start else {
                return Ok(None);
            };
            let value = B::read(RecordWords {
                block: AxisWords { words, axis },
                start: word,
            })?;
            Ok(Some(Record { word, value }))
        },
    )
}

// What the records say, once what is written is in range.
#[tactic(auto, using(crate::proofs::Passes::record_no, crate::proofs::Passes::record_ok))]
fn check_records<B: Block>(
    block: &B,
    written: Records<B::Written>,
) -> Result<Records<B::Value>, Fault>
    requires { Rooms written }
    ensures { result ≡ answer (by_record (B.ranges block.now) written) (all_revalued B.value written) }
{
    try_by_axis(
        written,
        |axis, written: Option<Record<B::Written>>| -> Result<Option<Record<B::Value>>, Fault>
            requires { Room written }
            ensures { result ≡ answer (of_record (B.ranges block.entry.now (Some axis)) written) (revalued B.value written) }
        {
            let Some(record) = written else {
                return Ok(None);
            };
            let value = block.check(axis, record.word, record.value)?;
            Ok(Some(Record {
                word: record.word,
                value,
            }))
        },
    )
}
