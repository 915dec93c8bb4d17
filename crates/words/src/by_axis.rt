// One thing for each axis.
ghost use Rattle.std.specs.Prelude.{◌≡◌};
ghost use Rattle.words.specs.Axes.{of_axis};

use crate::axis::AxisId;

#[derive(Clone, Copy, PartialEq, Eq, Debug, Drop)]
pub struct ByAxis<T> {
    pub one: T,
    pub two: T,
    pub three: T,
}

impl<T> ByAxis<T> {
    pub fn get(&self, axis: AxisId) -> &T
        ensures { result.now ≡ of_axis self.now axis }
    {
        match axis {
            AxisId::One => &self.one,
            AxisId::Two => &self.two,
            AxisId::Three => &self.three,
        }
    }
}
