// Ranges of the values in a record's words.
ghost use Rattle.std.specs.Prelude.{◌≡◌, ◌+◌, ◌^◌, ◌<◌, length, Some};
ghost use Rattle.blocks.specs.Bounds.{ranges_from};
ghost use Rattle.blocks.specs.Questions.{answer};

use words::{AxisId, Fault, Question};

// The greatest rate, in counts per tick.
pub const RATE_MAX: u16 = 7_996;

// A value that has to be at least 1 and at most `most`.
#[derive(Clone, Copy)]
pub(crate) struct Bounded {
    pub value: u16,
    pub most: u16,
}

// Whether the values of the record at `start`, whose indices in it run on from `first`, are within their bounds.
pub(crate) fn check_bounds(
    axis: AxisId,
    start: usize,
    first: usize,
    values: &[Bounded],
) -> Result<(), Fault>
    requires { start + (first + length values.now) < 2 ^ 64 }
    ensures { result ≡ answer (ranges_from (Some axis) start first values.now) tt }
{
    for (i, bounded) in values.iter().enumerate() {
        if !(1..=bounded.most).contains(&bounded.value) {
            return Err(Question::Range.refused(axis, start + (first + i)));
        }
    }
    Ok(())
}
