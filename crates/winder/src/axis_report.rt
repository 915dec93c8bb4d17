// What the program prints of the axis. The texts of `Display` here have no contract; what is worked out in them comes from functions
// that have one.
ghost use Rattle.std.specs.Prelude.{◌≡◌};
ghost use Rattle.moves.specs.Numbers.{noted_number};

use crate::axis_run::{Ending, TICK_LIMIT, run_axis};
use crate::orders::Order;
use crate::settings::{AXIS_GAP_GAIN, AXIS_STEP_GAIN, moveset};
use crate::winding::AxisReading;
use modes::Command;
use moves::Note;
use std::{fmt, io};

pub fn wind_axis(rt: &impl Print) -> io::Result<()> {
    println!(rt; "axis 1 winds; gains {AXIS_GAP_GAIN} and {AXIS_STEP_GAIN}")?;
    match run_axis(rt)? {
        Some(ending) => println!(rt; "{ending}"),
        None => println!(rt; "stopped: not wound after {TICK_LIMIT} ticks"),
    }
}

pub fn print_order(rt: &impl Print, order: Option<Order>) -> io::Result<()> {
    match order {
        Some(order) => println!(rt; "{order}"),
        None => Ok(()),
    }
}

pub fn print_axis_tick(
    rt: &impl Print,
    tick: u32,
    step: Option<i32>,
    reading: &AxisReading,
) -> io::Result<()> {
    let mode = reading.mode.number();
    let step = Given(step);
    println!(rt; "tick {tick}: mode {mode}, {step}; {reading}")
}

// The number that the status shows of a note: 0 for none.
fn noted_number(note: Option<Note>) -> u8
    ensures { result ≡ noted_number note }
{
    note.map_or(0, Note::number)
}

// A command by its code and its name.
#[derive(Clone, Copy)]
struct Named(Command);

impl fmt::Display for Named {
    fn fmt<W: fmt::Write>(&self, f: &mut fmt::Formatter<W>) -> fmt::Result {
        let name = match self.0 {
            Command::Begin => "begin",
            Command::Start => "start",
            Command::SlideStop => "slide stop",
            Command::SearchHome => "search home",
            Command::JogForward => "jog forward",
            Command::JogReverse => "jog reverse",
            Command::Reset => "reset",
            Command::Override(_) => "override",
        };
        write!(f, "command {}, {name}", self.0.code())
    }
}

impl fmt::Display for Order {
    fn fmt<W: fmt::Write>(&self, f: &mut fmt::Formatter<W>) -> fmt::Result {
        match self {
            Order::SetParameters => f.write_str("parameters"),
            Order::Command(command) => write!(f, "{}", Named(*command)),
            Order::Wind => {
                let count = moveset().count;
                write!(f, "moveset of {count} moves; {}", Named(Command::Begin))
            }
        }
    }
}

// The step of a tick, if one was given.
#[derive(Clone, Copy)]
struct Given(Option<i32>);

impl fmt::Display for Given {
    fn fmt<W: fmt::Write>(&self, f: &mut fmt::Formatter<W>) -> fmt::Result {
        match self.0 {
            Some(counts) => write!(f, "step {counts}"),
            None => f.write_str("no step"),
        }
    }
}

impl fmt::Display for AxisReading {
    fn fmt<W: fmt::Write>(&self, f: &mut fmt::Formatter<W>) -> fmt::Result {
        let noted = noted_number(self.note);
        write!(f, "{}; shown {}, noted {noted}", self.drive, self.shown)
    }
}

impl fmt::Display for Ending {
    fn fmt<W: fmt::Write>(&self, f: &mut fmt::Formatter<W>) -> fmt::Result {
        let ticks = self.ticks;
        match self.note {
            None => write!(f, "wound in {ticks} ticks: ")?,
            Some(note) => write!(f, "stopped after {ticks} ticks with {}: ", note.number())?,
        }
        write!(
            f,
            "last endpoint {}, place {}",
            self.last_endpoint, self.place
        )
    }
}
