// The records of a block, as its line shows them.
use blocks::Records;
use modes::Command;
use moves::Parameters;
use std::fmt;
use words::AxisId;

// The records that a block has, axis 1 first.
#[derive(Drop)]
pub struct RecordList<T>(pub Records<T>);

impl<T: Value> fmt::Display for RecordList<T> {
    fn fmt<W: fmt::Write>(&self, f: &mut fmt::Formatter<W>) -> fmt::Result {
        let mut separator = "";
        for axis in AxisId::ALL {
            if let Some(record) = self.0.get(axis) {
                write!(f, "{separator}axis {} at {} =", axis.number(), record.word)?;
                record.value.write(f)?;
                separator = "; ";
            }
        }
        Ok(())
    }
}

// What a record says.
pub(crate) trait Value {
    // Each number of it behind a blank.
    fn write<W: fmt::Write>(&self, f: &mut fmt::Formatter<W>) -> fmt::Result;
}

impl Value for i32 {
    fn write<W: fmt::Write>(&self, f: &mut fmt::Formatter<W>) -> fmt::Result {
        write!(f, " {self}")
    }
}

impl Value for Command {
    fn write<W: fmt::Write>(&self, f: &mut fmt::Formatter<W>) -> fmt::Result {
        let code = self.code();
        let argument = match *self {
            Command::Override(percent) => percent,
            _ => 0,
        };
        write!(f, " {code} {argument}")
    }
}

impl Value for Parameters {
    fn write<W: fmt::Write>(&self, f: &mut fmt::Formatter<W>) -> fmt::Result {
        for position in [self.low, self.high, self.home, self.offset] {
            write!(f, " {position}")?;
        }
        for number in [
            self.feedrate,
            self.acceleration,
            self.deceleration,
            self.jog_rate,
            self.home_rate,
            self.creep_rate,
            self.band,
            self.following_limit,
        ] {
            write!(f, " {number}")?;
        }
        Ok(())
    }
}
