// One word of a block, its bits and its decimal digits.
ghost use Rattle.std.specs.Prelude.{◌≡◌, ◌<◌};
ghost use Rattle.words.specs.Words.{on};
ghost use Rattle.words.specs.Readings.{wrong_word, digit_reading, three_digit_reading, number_reading};

use crate::axis::AxisId;
use crate::fault::{Fault, Question};

// A word with its index in its block and the axis that it is read for: what a refusal names.
#[derive(Clone, Copy)]
pub struct Word {
    pub bits: u16,
    pub axis: AxisId,
    pub index: usize,
}

// A bit of a word, by its octal number.
#[derive(Clone, Copy)]
pub enum Bit {
    B0 = 0o0,
    B1 = 0o1,
    B2 = 0o2,
    B3 = 0o3,
    B4 = 0o4,
    B5 = 0o5,
    B6 = 0o6,
    B7 = 0o7,
    B10 = 0o10,
    B11 = 0o11,
    B12 = 0o12,
    B13 = 0o13,
    B14 = 0o14,
    B15 = 0o15,
    B16 = 0o16,
    B17 = 0o17,
}

impl Word {
    pub fn has(self, which: Bit) -> bool
        ensures { result ≡ on which self.bits }
    {
        (self.bits >> (which as u16)) % 2 == 1
    }

    // This word got a no to the question about its digits and fixed bits.
    pub fn wrong(self) -> Fault
        ensures { result ≡ wrong_word self }
    {
        Question::Digits.refused(self.axis, self.index)
    }

    // The decimal digit at a place, counted from the right.
    fn digit(self, place: u16) -> Result<u16, Fault>
        requires { place < 4 }
        ensures { result ≡ digit_reading self place }
    {
        let value = (self.bits >> (4 * place)) % 16;
        if value <= 9 {
            Ok(value)
        } else {
            Err(self.wrong())
        }
    }

    // The number that the three digits on the right spell; the four bits before them are not looked at.
    pub fn three_digits(self) -> Result<u16, Fault>
        ensures { result ≡ three_digit_reading self }
    {
        Ok(self.digit(2)? * 100 + self.digit(1)? * 10 + self.digit(0)?)
    }

    // The number that all four digits spell.
    pub fn four_digits(self) -> Result<u16, Fault>
        ensures { result ≡ number_reading self }
    {
        Ok(self.digit(3)? * 1000 + self.three_digits()?)
    }
}
