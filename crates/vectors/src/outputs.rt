// Outputs of the analog drive, and what becomes of its latest step.
use crate::calls::{Call, Response};
use drive::{Analog, Drive};
use std::{fmt, io};

// The gains, a place to be named, a step from there, and what the encoder then reports.
#[derive(Clone, Copy)]
struct Case(i32, i32, i32, i32, i32);

const OUTPUTS: [Case; 20] = [
    // one gain alone, and both
    Case(1_000, 0, 0, 4, -8),
    Case(0, 1_000, 0, 4, -8),
    Case(250, 500, 0, 4, -96),
    // toward zero on either side
    Case(250, 500, 0, 4, -97),
    Case(250, 500, 0, -4, 97),
    Case(250, 500, 0, -4, -7),
    Case(333, 0, 0, 0, 3),
    Case(333, 0, 0, 0, -3),
    Case(1, 2, 0, -999, 0),
    // at the ceiling, past it, and far past it
    Case(1_000, 0, 0, 0, -32_000),
    Case(1_000, 0, 0, 0, -32_001),
    Case(1_000, 0, 0, 0, 32_001),
    Case(9_999, 9_999, 0, 7_996, -1_000_000),
    Case(9_999, 9_999, 0, -7_996, 1_000_000),
    Case(9_999, 9_999, -19_999_999, 39_999_998, 0),
    Case(0, 0, -19_999_999, 39_999_998, 0),
    // gains out of range
    Case(-5, 1_000, 0, 10, 0),
    Case(1_000, -5, 0, 10, 0),
    Case(12_000, 0, 0, 0, -2),
    Case(0, 12_000, 0, 2, 0),
];

// What follows a step of 8.
const AFTER_A_STEP: [Call; 10] = [
    Call::Step(-3),
    Call::Step(0),
    Call::Step(20_000_000),
    Call::Feel(8, true),
    Call::Feel(8, false),
    Call::Name(5),
    Call::Name(20_000_000),
    Call::Wake,
    Call::Sleep,
    Call::Name(-19_999_999),
];

// What an analog drive shows of its output.
#[derive(Clone, Copy)]
struct ShownOutput(Analog);

impl fmt::Display for ShownOutput {
    fn fmt<W: fmt::Write>(&self, f: &mut fmt::Formatter<W>) -> fmt::Result {
        let gap = self.0.gap();
        let latest = self.0.latest_step();
        let output = self.0.output();
        write!(f, "gap {gap} latest step {latest} = {output}")
    }
}

pub fn print_outputs(rt: &impl Print) -> io::Result<()> {
    for Case(k1, k2, place, step, counts) in OUTPUTS {
        let mut drive = Analog::new(k1, k2);
        let _ = drive.name(place);
        drive.wake();
        let _ = drive.step(step);
        drive.feel(counts, true);
        let shown = ShownOutput(drive);
        println!(rt; "output of gains {k1} {k2} at {shown}")?;
    }
    Ok(())
}

pub fn print_latest_steps(rt: &impl Print) -> io::Result<()> {
    for call in AFTER_A_STEP {
        let mut drive = Analog::new(1_000, 1_000);
        drive.wake();
        let _ = drive.step(8);
        let answer = Response(call.make(&mut drive));
        let shown = ShownOutput(drive);
        println!(rt; "after a step of 8 {call} {answer}, {shown}")?;
    }
    Ok(())
}
