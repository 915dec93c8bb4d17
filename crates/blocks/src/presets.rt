// Preset blocks: a position for each axis that they name.
ghost use Rattle.std.specs.Prelude.{◌≡◌, []};
ghost use Rattle.blocks.specs.declared.kinds.Kind.TheVariants.{Presets};
ghost use Rattle.blocks.specs.Presets.{preset_value, preset_digits, preset_questions, presets};
ghost use Rattle.blocks.specs.Questions.{answer};

use crate::block::{Block, read_block};
use crate::fields::{Field, RecordWords};
use crate::kinds::Kind;
use crate::records::Records;
use words::{AxisId, Fault};

#[derive(Drop)]
struct PresetBlock;

impl Block for PresetBlock {
    type Written = i32;

    type Value = i32;

    const KIND: Kind = Kind::Presets;

    ghost KIND = { Presets };

    ghost digits = { preset_digits };

    ghost written = { preset_value };

    ghost ranges = { λ _ _ _ _. [] };

    ghost value = { λ counts. counts };

    fn read(words: RecordWords) -> Result<i32, Fault> {
        i32::read(words, 1)
    }

    // Any position is in range.
    fn check(&self, _axis: AxisId, _start: usize, counts: i32) -> Result<i32, Fault> {
        Ok(counts)
    }
}

// The presets that a block has for its axes, or its first no.
pub fn read_presets(words: &[u16]) -> Result<Records<i32>, Fault>
    ensures { result ≡ answer (preset_questions words.now) (presets words.now) }
{
    read_block(&PresetBlock, words)
}
