// A call of a reader with the words of a block, and its line.
use crate::moveset_lines::MoveList;
use crate::records::RecordList;
use blocks::{Reaches, read_commands, read_parameters, read_presets};
use movesets::read_moveset;
use std::fmt;
use words::{AxisId, Fault};

#[derive(Clone, Copy)]
pub enum Case {
    Presets(&'static [u16]),
    Commands(&'static [u16]),
    Parameters(Reaches, &'static [u16]),
    Moveset(AxisId, &'static [u16]),
}

impl fmt::Display for Case {
    fn fmt<W: fmt::Write>(&self, f: &mut fmt::Formatter<W>) -> fmt::Result {
        match *self {
            Case::Presets(words) => {
                let answer = Answer(read_presets(words).map(RecordList));
                write!(f, "preset:{}{answer}", Words(words))
            }
            Case::Commands(words) => {
                let answer = Answer(read_commands(words).map(RecordList));
                write!(f, "command:{}{answer}", Words(words))
            }
            Case::Parameters(reaches, words) => {
                let Reaches { one, two, three } = reaches;
                let answer = Answer(read_parameters(words, reaches).map(RecordList));
                write!(f, "parameters {one} {two} {three}:{}{answer}", Words(words))
            }
            Case::Moveset(axis, words) => {
                let number = axis.number();
                let answer = Answer(read_moveset(words, axis).map(MoveList));
                write!(f, "moveset {number}:{}{answer}", Words(words))
            }
        }
    }
}

// The words of a block, and the colon behind them.
#[derive(Clone, Copy)]
struct Words(&'static [u16]);

impl fmt::Display for Words {
    fn fmt<W: fmt::Write>(&self, f: &mut fmt::Formatter<W>) -> fmt::Result {
        for word in self.0 {
            write!(f, " {word:04X}")?;
        }
        write!(f, ": ")
    }
}

// What a reader answered. `vectors` has the same with a sign of equality before a value; the two programs share only the layers of
// the card, and no layer prints lines.
#[derive(Drop)]
struct Answer<T>(Result<T, Fault>);

impl<T: fmt::Display> fmt::Display for Answer<T> {
    fn fmt<W: fmt::Write>(&self, f: &mut fmt::Formatter<W>) -> fmt::Result {
        match &self.0 {
            Ok(value) => write!(f, "{value}"),
            Err(fault) => write!(f, "refused {fault}"),
        }
    }
}
