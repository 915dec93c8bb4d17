// What the subjects share.
ghost use Rattle.std.specs.Prelude.{◌≡◌};

use std::{fmt, io};
use words::{AxisId, Fault, Word, WordPair};

// Two words of a block, one after the other. With the field names of `words::PositionWords` a case would not fit one line of a table.
#[derive(Clone, Copy)]
pub struct Pair(pub u16, pub u16);

impl fmt::Display for Pair {
    fn fmt<W: fmt::Write>(&self, f: &mut fmt::Formatter<W>) -> fmt::Result {
        write!(f, "{:04X} {:04X}", self.0, self.1)
    }
}

// Where the two words of a case stand, which a refusal has to name.
#[derive(Clone, Copy)]
pub struct Place {
    pub axis: AxisId,
    pub first: usize,
    pub second: usize,
}

impl Place {
    pub fn words(self, pair: Pair) -> WordPair
        ensures first { result.first ≡ record { bits = pair.0; axis = self.axis; index = self.first } }
        ensures second { result.second ≡ record { bits = pair.1; axis = self.axis; index = self.second } }
    {
        let word = |bits, index| Word {
            bits,
            axis: self.axis,
            index,
        };
        WordPair {
            first: word(pair.0, self.first),
            second: word(pair.1, self.second),
        }
    }
}

// What words read as, or why they are refused.
#[derive(Clone, Copy, Drop)]
pub struct Answer<T>(pub Result<T, Fault>);

impl<T: fmt::Display> fmt::Display for Answer<T> {
    fn fmt<W: fmt::Write>(&self, f: &mut fmt::Formatter<W>) -> fmt::Result {
        match &self.0 {
            Ok(value) => write!(f, "= {value}"),
            Err(fault) => write!(f, "refused {fault}"),
        }
    }
}

// Reads each pair of words at the place, and prints the answer.
pub(crate) fn print_answers<T, F>(
    rt: &impl Print,
    subject: &str,
    place: Place,
    pairs: &[Pair],
    read: F,
) -> io::Result<()>
where
    T: fmt::Display + Drop,
    F: Fn(WordPair) -> Result<T, Fault>,
    requires { F.IsAlwaysCallable read }
{
    for pair in pairs {
        let answer = Answer(read(place.words(*pair)));
        println!(rt; "{subject} {pair} {answer}")?;
    }
    Ok(())
}
