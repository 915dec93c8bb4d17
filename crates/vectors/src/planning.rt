// Braking distances and planned speeds.
use motion::{Rates, braking_distance};
use std::{fmt, io};

// A speed and a deceleration.
#[derive(Clone, Copy)]
struct Brake(u16, u16);

// The feedrate, the acceleration and the deceleration; then the speed and the room.
#[derive(Clone, Copy)]
struct Plan(u16, u16, u16, u16, u64);

const DISTANCES: [Brake; 18] = [
    Brake(0, 1),
    Brake(0, 9_999),
    Brake(1, 1),
    Brake(8, 1),
    Brake(4, 2),
    Brake(5, 2),
    Brake(7, 3),
    Brake(8, 3),
    Brake(9, 3),
    Brake(6, 6),
    Brake(7, 6),
    Brake(5, 9_999),
    Brake(4, 0),
    Brake(7_996, 1),
    Brake(7_996, 40),
    Brake(10_154, 9_999),
    Brake(65_535, 1),
    Brake(65_535, 65_535),
];

const PLANS: [Plan; 26] = [
    // ten counts: 2, 4, 3, 1, 0
    Plan(4, 2, 2, 0, 10),
    Plan(4, 2, 2, 2, 8),
    Plan(4, 2, 2, 4, 4),
    Plan(4, 2, 2, 3, 1),
    Plan(4, 2, 2, 1, 0),
    // one count: 1, 0
    Plan(4, 2, 2, 0, 1),
    // no room, and room to spare
    Plan(4, 2, 2, 0, 0),
    Plan(4, 2, 2, 4, 40_000_000),
    // the feedrate is lowered to 1 and to 0 under way
    Plan(1, 2, 2, 4, 100),
    Plan(0, 2, 2, 4, 100),
    Plan(0, 2, 2, 1, 100),
    // no acceleration; an acceleration past the feedrate
    Plan(4, 0, 2, 3, 100),
    Plan(7_996, 9_999, 9_999, 0, 40_000_000),
    // the braking distance fits exactly, and lacks one count
    Plan(10, 10, 3, 0, 22),
    Plan(10, 10, 3, 0, 21),
    Plan(100, 5, 1, 40, 1_035),
    Plan(100, 5, 1, 40, 1_034),
    Plan(100, 5, 1, 40, 820),
    Plan(100, 5, 1, 40, 819),
    // the speed less the deceleration is above the feedrate
    Plan(10, 1, 3, 50, 1_000),
    Plan(7_996, 50, 40, 7_990, 40_000_000),
    Plan(7_996, 50, 40, 7_996, 803_200),
    Plan(7_996, 50, 40, 7_996, 803_198),
    Plan(10_154, 9_999, 9_999, 10_154, 10_000),
    // as far as the numbers go
    Plan(65_535, 65_535, 1, 65_535, 2_147_450_880),
    Plan(65_535, 1, 65_535, 65_535, 1_000),
];

const SLOWED: [Brake; 6] = [
    Brake(5, 2),
    Brake(3, 2),
    Brake(1, 2),
    Brake(0, 2),
    Brake(7_996, 40),
    Brake(40, 9_999),
];

pub fn print_distances(rt: &impl Print) -> io::Result<()> {
    // A closure, as the name alone is not proved here: `braking_distance` stands in a module that `motion` keeps private.
    print_brakes(rt, "braking distance", &DISTANCES, |speed, deceleration| {
        braking_distance(speed, deceleration)
    })
}

pub fn print_plans(rt: &impl Print) -> io::Result<()> {
    for Plan(feedrate, acceleration, deceleration, speed, room) in PLANS {
        let rates = Rates {
            feedrate,
            acceleration,
            deceleration,
        };
        let planned = rates.plan(speed, room);
        println!(rt;
            "plan {feedrate} {acceleration} {deceleration} from {speed} in {room} = {planned}"
        )?;
    }
    Ok(())
}

pub fn print_slowed(rt: &impl Print) -> io::Result<()> {
    print_brakes(rt, "slowed", &SLOWED, |speed, deceleration| {
        let rates = Rates {
            feedrate: 1,
            acceleration: 1,
            deceleration,
        };
        rates.slowed(speed)
    })
}

// Prints what comes of each speed and deceleration.
fn print_brakes<T, F>(
    rt: &impl Print,
    subject: &str,
    brakes: &[Brake],
    compute: F,
) -> io::Result<()>
where
    T: fmt::Display + Drop,
    F: Fn(u16, u16) -> T,
    requires { F.IsAlwaysCallable compute }
{
    for Brake(speed, deceleration) in brakes {
        let answer = compute(*speed, *deceleration);
        println!(rt; "{subject} {speed} at {deceleration} = {answer}")?;
    }
    Ok(())
}
