// A step at each axis, in the order of their numbers.
ghost use Rattle.words.specs.declared.axis.AxisId.TheVariants.{One, Two, Three};
ghost use Rattle.blocks.specs.Turns.{InTurn};

use words::{AxisId, ByAxis};

// What the step makes of each item, axis 1 first, or the first error.
pub(crate) fn try_by_axis<T, U, E, F>(all: ByAxis<T>, step: F) -> Result<ByAxis<U>, E>
where
    T: Drop,
    U: Drop,
    F: Fn(AxisId, T) -> Result<U, E>,
    requires { (F.pre step One all.one) × (F.pre step Two all.two) × (F.pre step Three all.three) }
    ensures { InTurn (F.post step) all result }
{
    Ok(ByAxis {
        one: step(AxisId::One, all.one)?,
        two: step(AxisId::Two, all.two)?,
        three: step(AxisId::Three, all.three)?,
    })
}
