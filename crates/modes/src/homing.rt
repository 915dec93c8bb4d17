// The search for home.
ghost use Rattle.std.specs.Prelude.{◌≡◌};
ghost use Rattle.modes.specs.Homing.{search_home, found, at_home, creep, crept_home};

use crate::input::Seen;
use crate::jogging::reach_room;
use crate::rates::rates_at;
use moves::{Control, Mode, Note};

// Searching home at a rate: an axis that comes to the end of the reach has not found it.
pub(crate) fn search_home(control: &mut Control, searching: Mode, rate: u16, seen: &Seen)
    ensures { control.new.state ≡ search_home searching rate seen.now control.old.state }
{
    let room = reach_room(control, seen);
    let speed = rates_at(control, rate).plan(control.state.motion.speed, room);
    control.state.motion.speed = speed;
    if u64::from(speed) == room {
        control.state.motion.mode = Mode::Stopping;
        control.state.note = Some(Note::HomeNotFound);
    } else {
        control.state.motion.mode = searching;
    }
}

fn find_home(control: &mut Control)
    ensures { control.new.state ≡ found control.old.state }
{
    control.state.motion.mode = Mode::Rest;
    control.state.motion.speed = 0;
    control.state.coordinates.last_endpoint = i64::from(control.state.parameters.home);
    control.state.homed = true;
}

// Home is at the marker, if the axis came to it at no more than the creep rate.
fn at_home(control: &Control, marker: bool) -> bool
    ensures { result ≡ at_home marker control.now.state }
{
    marker && control.state.motion.speed <= control.state.parameters.creep_rate
}

// Creeping on, or home found. Answers the place to be named home.
pub(crate) fn creep(control: &mut Control, marker: bool, seen: &Seen) -> Option<i32>
    ensures after { control.new.state ≡ creep marker seen.now control.old.state }
    ensures home { result ≡ crept_home marker control.old.state }
{
    if at_home(control, marker) {
        find_home(control);
        Some(control.state.parameters.home)
    } else {
        search_home(
            control,
            Mode::Creeping,
            control.state.parameters.creep_rate,
            seen,
        );
        None
    }
}
