// One call of a drive that stands somewhere, tried on the analog drive and on a reversed mount over one.
ghost use Rattle.std.specs.Prelude.{◌≡◌};

use crate::calls::{Call, Response};
use drive::{Analog, Drive, Reversed};
use std::{fmt, io};

// A new drive is named the place and woken; then its encoder reports the counts, whose negative is the gap, and whether the
// power stage is ready, without which it sleeps. What follows is the call.
#[derive(Clone, Copy)]
struct Case(i32, i32, bool, Call);

const CASES: [Case; 33] = [
    // steps: asleep is asked before the reach
    Case(0, 0, false, Call::Step(5)),
    Case(19_999_999, 0, false, Call::Step(1)),
    Case(19_999_999, 0, true, Call::Step(1)),
    Case(-19_999_999, 0, true, Call::Step(-1)),
    Case(19_999_990, -3, true, Call::Step(9)),
    Case(19_999_990, -3, true, Call::Step(10)),
    Case(-19_999_990, 3, true, Call::Step(-9)),
    Case(5, 2, true, Call::Step(-7)),
    Case(7, 0, false, Call::Step(0)),
    Case(7, 0, true, Call::Step(0)),
    Case(-19_999_999, 0, true, Call::Step(39_999_998)),
    Case(-19_999_999, 0, true, Call::Step(39_999_999)),
    Case(0, 0, true, Call::Step(i32::MAX)),
    Case(0, 0, true, Call::Step(i32::MIN)),
    // the gap is held, by steps and by the encoder
    Case(0, -999_999, true, Call::Step(4)),
    Case(0, 999_999, true, Call::Step(-4)),
    Case(0, -10, true, Call::Feel(4, true)),
    Case(0, 10, true, Call::Feel(-32_768, true)),
    Case(0, 999_990, true, Call::Feel(32_767, true)),
    Case(0, -1_000_000, true, Call::Feel(4, true)),
    Case(0, 0, true, Call::Feel(i32::MIN, true)),
    Case(0, 0, true, Call::Feel(i32::MAX, true)),
    // the encoder puts to sleep, and does not wake
    Case(100, -7, true, Call::Feel(2, false)),
    Case(100, -7, false, Call::Feel(2, true)),
    // names: only the reach is asked
    Case(5, 2, false, Call::Name(-20_000_000)),
    Case(5, 2, false, Call::Name(-19_999_999)),
    Case(5, 2, true, Call::Name(20_000_000)),
    Case(5, 2, true, Call::Name(19_999_999)),
    Case(5, 2, true, Call::Name(i32::MIN)),
    // wake and sleep
    Case(-40, -700, true, Call::Wake),
    Case(-40, -700, false, Call::Wake),
    Case(-40, -700, true, Call::Sleep),
    Case(-40, -700, false, Call::Sleep),
];

// What a drive shows of itself.
#[derive(Clone, Copy)]
struct Shown {
    place: i32,
    gap: i32,
    awake: bool,
}

impl Shown {
    fn of<D: Drive>(drive: &D) -> Shown
        ensures { result ≡ record { place = (D.meaning drive.now).place; gap = (D.meaning drive.now).gap; awake = (D.meaning drive.now).awake } }
    {
        Shown {
            place: drive.place(),
            gap: drive.gap(),
            awake: drive.awake(),
        }
    }
}

impl fmt::Display for Shown {
    fn fmt<W: fmt::Write>(&self, f: &mut fmt::Formatter<W>) -> fmt::Result {
        let awake = if self.awake { "awake" } else { "asleep" };
        write!(f, "place {} gap {} {awake}", self.place, self.gap)
    }
}

// What the drive shows before the call, the call with its answer, and what the drive shows then.
#[derive(Clone, Copy)]
struct Trial {
    before: Shown,
    call: Call,
    answer: Response,
    after: Shown,
}

impl fmt::Display for Trial {
    fn fmt<W: fmt::Write>(&self, f: &mut fmt::Formatter<W>) -> fmt::Result {
        let Trial {
            before,
            call,
            answer,
            after,
        } = self;
        write!(f, "{before}, {call} {answer}, {after}")
    }
}

impl Case {
    fn run<D: Drive>(self, drive: &mut D) -> Trial {
        let Case(place, counts, ready, call) = self;
        let _ = drive.name(place);
        drive.wake();
        drive.feel(counts, ready);
        Trial {
            before: Shown::of(drive),
            call,
            answer: Response(call.make(drive)),
            after: Shown::of(drive),
        }
    }
}

pub fn print_drives(rt: &impl Print) -> io::Result<()> {
    for case in CASES {
        let mut analog = Analog::new(0, 0);
        let trial = case.run(&mut analog);
        println!(rt; "analog {trial}")?;
        let mut mount = Reversed::new(Analog::new(0, 0));
        let trial = case.run(&mut mount);
        let below = Shown::of(mount.below());
        println!(rt; "reversed {trial}, below {below}")?;
    }
    Ok(())
}
