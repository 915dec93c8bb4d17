// Jogging, and the room that an axis has within its limits or its reach.
ghost use Rattle.std.specs.Prelude.{◌≡◌};
ghost use Rattle.modes.specs.Jogging.{room_to, up_to, reach_room, jog_room, jog};

use crate::input::Seen;
use crate::rates::rates_at;
use moves::{Control, Direction, Mode};

// The room from a place to a bound on the side of a direction.
fn room_to(way: Direction, low: i64, high: i64, place: i64) -> u64
    ensures { result ≡ room_to way low high place }
{
    match way {
        Direction::Plus => up_to(place, high),
        Direction::Minus => up_to(low, place),
    }
}

// How far it is up to a place; 0 where that lies behind.
fn up_to(from: i64, to: i64) -> u64
    ensures { result ≡ up_to from to }
{
    if from < to { to.abs_diff(from) } else { 0 }
}

pub(crate) fn reach_room(control: &Control, seen: &Seen) -> u64
    ensures { result ≡ reach_room seen.now control.now.state }
{
    let reach = i64::from(seen.reach);
    room_to(
        control.state.motion.direction,
        -reach,
        reach,
        i64::from(seen.place),
    )
}

// The room within the travel limits, or within the reach on an axis that is not homed.
fn jog_room(control: &Control, seen: &Seen) -> u64
    ensures { result ≡ jog_room seen.now control.now.state }
{
    if control.state.homed {
        room_to(
            control.state.motion.direction,
            i64::from(control.state.parameters.low),
            i64::from(control.state.parameters.high),
            i64::from(seen.place),
        )
    } else {
        reach_room(control, seen)
    }
}

// At the jog rate, until no distance is left.
pub(crate) fn jog(control: &mut Control, seen: &Seen)
    ensures { control.new.state ≡ jog seen.now control.old.state }
{
    let room = jog_room(control, seen);
    let rates = rates_at(control, control.state.parameters.jog_rate);
    let speed = rates.plan(control.state.motion.speed, room);
    control.state.motion.speed = speed;
    control.state.motion.mode = if u64::from(speed) == room {
        Mode::Stopping
    } else {
        Mode::Jogging
    };
}
