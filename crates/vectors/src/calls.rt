// The calls of a drive, as data: a table has them, and each is printed as it is made. A closure could not be printed.
ghost use Rattle.std.specs.Prelude.{◌≡◌};
ghost use Rattle.vectors.specs.Calls.{call_answer, after_call};

use drive::{Drive, Refusal};
use std::fmt;

#[derive(Clone, Copy)]
pub enum Call {
    Step(i32),
    // the counts of the encoder, and whether the power stage is ready
    Feel(i32, bool),
    Name(i32),
    Wake,
    Sleep,
}

impl Call {
    pub fn make<D: Drive>(self, drive: &mut D) -> Result<(), Refusal>
        ensures answer { result ≡ call_answer (D.meaning drive.old) self }
        ensures after { D.meaning drive.new ≡ after_call (D.meaning drive.old) self }
    {
        match self {
            Call::Step(counts) => drive.step(counts),
            Call::Feel(counts, ready) => {
                drive.feel(counts, ready);
                Ok(())
            }
            Call::Name(place) => drive.name(place),
            Call::Wake => {
                drive.wake();
                Ok(())
            }
            Call::Sleep => {
                drive.sleep();
                Ok(())
            }
        }
    }
}

impl fmt::Display for Call {
    fn fmt<W: fmt::Write>(&self, f: &mut fmt::Formatter<W>) -> fmt::Result {
        match self {
            Call::Step(counts) => write!(f, "step {counts}"),
            Call::Feel(counts, true) => write!(f, "feel {counts} ready"),
            Call::Feel(counts, false) => write!(f, "feel {counts} not ready"),
            Call::Name(place) => write!(f, "name {place}"),
            Call::Wake => f.write_str("wake"),
            Call::Sleep => f.write_str("sleep"),
        }
    }
}

// What a drive answers a call.
#[derive(Clone, Copy)]
pub struct Response(pub Result<(), Refusal>);

impl fmt::Display for Response {
    fn fmt<W: fmt::Write>(&self, f: &mut fmt::Formatter<W>) -> fmt::Result {
        match self.0 {
            Ok(()) => f.write_str("taken"),
            Err(refusal) => write!(f, "refused {refusal}"),
        }
    }
}
