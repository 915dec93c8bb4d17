// The axes by their numbers.
ghost use Rattle.std.specs.Prelude.{◌≡◌};
ghost use Rattle.words.specs.Faults.{axis_number};

// Which of the card's three axes.
#[derive(Clone, Copy, PartialEq, Eq, Debug)]
pub enum AxisId {
    One = 1,
    Two = 2,
    Three = 3,
}

impl AxisId {
    pub const ALL: [AxisId; 3] = [AxisId::One, AxisId::Two, AxisId::Three];

    pub fn number(self) -> u8
        ensures { result ≡ axis_number self }
    {
        self as u8
    }
}
