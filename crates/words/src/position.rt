// Positions: two words with a sign, ten million counts, and seven digits.
ghost use Rattle.std.specs.Prelude.{◌≡◌, ◌<◌};
ghost use Rattle.words.specs.Written.{Writing, packed, sign_bit};
ghost use Rattle.words.specs.Readings.{size_reading, signed_reading, position_reading, target_reading};

use crate::fault::Fault;
use crate::pair::WordPair;
use crate::word::Bit;

// The largest size of a position, in counts.
pub const POSITION_MAX: u32 = 19_999_999;

// Where a move goes: to a position, or so many counts on from the last endpoint.
#[derive(Clone, Copy, PartialEq, Eq, Debug)]
pub enum Target {
    Absolute(i32),
    Incremental(i32),
}

// The two words of a position, in the order of a block.
#[derive(Clone, Copy, PartialEq, Eq, Debug)]
pub struct PositionWords {
    pub first: u16,
    pub second: u16,
}

impl WordPair {
    // A position in a place that has no incremental mark.
    pub fn read_position(self) -> Result<i32, Fault>
        ensures { result ≡ position_reading self.first self.second }
    {
        let first = self.first;
        if first.has(Bit::B16) || first.has(Bit::B15) {
            return Err(first.wrong());
        }
        self.read_signed()
    }

    // The position of a move or an offset move, which may be incremental.
    pub fn read_target(self) -> Result<Target, Fault>
        ensures { result ≡ target_reading self.first self.second }
    {
        if self.first.has(Bit::B16) {
            return Err(self.first.wrong());
        }
        let counts = self.read_signed()?;
        if self.first.has(Bit::B15) {
            Ok(Target::Incremental(counts))
        } else {
            Ok(Target::Absolute(counts))
        }
    }

    // The counts, fixed bits and mark left to the caller.
    fn read_signed(self) -> Result<i32, Fault>
        ensures { result ≡ signed_reading self.first self.second }
    {
        let size = self.read_size()? as i32;
        if self.first.has(Bit::B17) {
            Ok(-size)
        } else {
            Ok(size)
        }
    }

    // The same without the sign.
    fn read_size(self) -> Result<u32, Fault>
        ensures { result ≡ size_reading self.first self.second }
    {
        let digits = self.seven_digits()?;
        if self.first.has(Bit::B14) {
            Ok(digits + 10_000_000)
        } else {
            Ok(digits)
        }
    }
}

// The words of a position, or None for a number whose size is over POSITION_MAX. Zero has no sign. The error of a
// TryFrom would say no more than None does.
pub fn write_position(counts: i32) -> Option<PositionWords>
    ensures { Writing counts result }
{
    let size = counts.unsigned_abs();
    if size > POSITION_MAX {
        return None;
    }
    Some(PositionWords {
        first: sign_bit(counts) + pack((size / 10_000) as u16),
        second: pack((size % 10_000) as u16),
    })
}

// Bit 17, which is on for a number below 0.
fn sign_bit(counts: i32) -> u16
    ensures { result ≡ sign_bit counts }
{
    if counts < 0 { 0x8000 } else { 0 }
}

// Four decimal digits in the places of a word.
fn pack(number: u16) -> u16
    requires { number < 10000 }
    ensures { result ≡ packed number }
{
    number / 1000 * 0x1000 + number / 100 % 10 * 0x100 + number / 10 % 10 * 0x10 + number % 10
}
