// A whole move, tick by tick.
ghost use Rattle.std.specs.Prelude.{◌≡◌};
ghost use Rattle.winder.specs.Runs.{Reachable, ArrivedAt};
ghost use Rattle.winder.specs.declared.run.Stop.TheVariants.{Refused, NotPrinted};

use crate::bench::Bench;
use crate::reading::Reading;
use crate::report::print_tick;
use drive::Refusal;
use motion::Rates;
use std::{fmt, io};

// The rates of every move on the bench.
pub const RATES: Rates = Rates {
    feedrate: 4,
    acceleration: 2,
    deceleration: 2,
};

// A tick takes one count at least as long as any is left, and no position has more than 19,999,999 counts.
// One tick more lets the encoders catch up.
pub const LIMIT: u32 = 20_000_000;

// Where a move ended.
#[derive(Clone, Copy)]
pub struct Arrival {
    pub ticks: u32,
    pub analog: Reading,
    pub reversed: Reading,
}

impl fmt::Display for Arrival {
    fn fmt<W: fmt::Write>(&self, f: &mut fmt::Formatter<W>) -> fmt::Result {
        let ticks = self.ticks;
        let analog = self.analog.place;
        let reversed = self.reversed.place;
        write!(
            f,
            "arrived in {ticks} ticks: analog place {analog}, reversed place {reversed}"
        )
    }
}

// Why a move did not arrive.
#[derive(Debug, Drop)]
pub enum Stop {
    Refused(Refusal),
    LimitReached,
    // a tick could not be printed
    NotPrinted(io::Error),
}

impl fmt::Display for Stop {
    fn fmt<W: fmt::Write>(&self, f: &mut fmt::Formatter<W>) -> fmt::Result {
        match self {
            Stop::Refused(refusal) => write!(f, "a drive refused its step with {refusal}"),
            Stop::LimitReached => write!(f, "not there after {LIMIT} ticks"),
            Stop::NotPrinted(error) => write!(f, "{error}"),
        }
    }
}

impl From<Refusal> for Stop {
    ghost from_gives = { λ refusal stop. stop ≡ Refused refusal };

    fn from(refusal: Refusal) -> Stop {
        Stop::Refused(refusal)
    }
}

impl From<io::Error> for Stop {
    ghost from_gives = { λ error stop. stop ≡ NotPrinted error };

    fn from(error: io::Error) -> Stop {
        Stop::NotPrinted(error)
    }
}

// Carries a move by `counts` out and prints each tick.
pub fn run(rt: &impl Print, counts: i32) -> Result<Arrival, Stop>
    ensures { Reachable counts → ArrivedAt counts result }
{
    let mut bench = Bench::new(counts);
    for tick in 1..=LIMIT {
        let step = bench.tick(RATES)?;
        print_tick(rt, tick, step, &bench)?;
        if bench.is_done() {
            return Ok(Arrival {
                ticks: tick,
                analog: bench.analog_reading(),
                reversed: bench.reversed_reading(),
            });
        }
    }
    Err(Stop::LimitReached)
}
