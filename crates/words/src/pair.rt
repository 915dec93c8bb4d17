// Two words that are read as one, the upper digits in the first.
ghost use Rattle.std.specs.Prelude.{◌≡◌};
ghost use Rattle.words.specs.Readings.{seven_digit_reading};

use crate::fault::Fault;
use crate::word::Word;

#[derive(Clone, Copy)]
pub struct WordPair {
    pub first: Word,
    pub second: Word,
}

impl WordPair {
    // The number that the last three digits of the first word and the four of the second spell.
    pub fn seven_digits(self) -> Result<u32, Fault>
        ensures { result ≡ seven_digit_reading self.first self.second }
    {
        let high = u32::from(self.first.three_digits()?);
        let low = u32::from(self.second.four_digits()?);
        Ok(high * 10_000 + low)
    }
}
