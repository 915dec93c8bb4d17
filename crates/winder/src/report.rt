// What the program prints of the move. The lines have no contract; what is worked out in them comes from functions that have one.
use crate::arguments::position;
use crate::axis_report::wind_axis;
use crate::bench::{Bench, GAP_GAIN, STEP_GAIN};
use crate::run::{RATES, Stop, run};
use std::io;
use words::PositionWords;

// The arguments are no two words: how they should be, and an error for the status of the process.
pub fn print_usage(rt: &impl Eprint) -> io::Result<()> {
    eprintln!(rt;
        "usage: winder FIRST SECOND, the two words of a position in hexadecimal digits, as in winder 0000 0010"
    )?;
    Err(io::Error::from(io::ErrorKind::InvalidInput))
}

// Reads the position, carries the move out and winds with an axis, or says why not.
pub fn wind(rt: &impl Print, words: PositionWords) -> io::Result<()> {
    let PositionWords { first, second } = words;
    match position(words) {
        Ok(counts) => {
            println!(rt; "position {first:04X} {second:04X}: {counts} counts")?;
            print_settings(rt)?;
            print_run(rt, counts)?;
            wind_axis(rt)
        }
        Err(fault) => println!(rt;
            "position {first:04X} {second:04X} refused: question {}, axis {}, word {}",
            fault.question.number(),
            fault.axis_number(),
            fault.word
        ),
    }
}

fn print_settings(rt: &impl Print) -> io::Result<()> {
    println!(rt;
        "feedrate {}, acceleration {}, deceleration {}; gains {GAP_GAIN} and {STEP_GAIN}",
        RATES.feedrate, RATES.acceleration, RATES.deceleration
    )
}

fn print_run(rt: &impl Print, counts: i32) -> io::Result<()> {
    match run(rt, counts) {
        Ok(arrival) => println!(rt; "{arrival}"),
        Err(Stop::NotPrinted(error)) => Err(error),
        Err(stop) => println!(rt; "stopped: {stop}"),
    }
}

pub fn print_tick(rt: &impl Print, tick: u32, step: i32, bench: &Bench) -> io::Result<()> {
    let analog = bench.analog_reading();
    let reversed = bench.reversed_reading();
    println!(rt; "tick {tick}: step {step}; analog {analog}; reversed {reversed}")
}
