// What a tick does to an axis that is not down.
ghost use Rattle.std.specs.Prelude.{◌≡◌};
ghost use Rattle.modes.specs.Tick.{advance, named_home};

use crate::homing::{creep, search_home};
use crate::input::{Input, Seen};
use crate::jogging::jog;
use crate::standing::{dwell, gap_within, settle, slow_down, stand};
use crate::travel::travel;
use moves::{Control, Mode};

// One tick of an axis that is not down, given what its drive shows. Answers the place to be named, if
// home was found.
pub fn advance(control: &mut Control, input: &Input, seen: &Seen) -> Option<i32>
    ensures after { control.new.state ≡ advance input.now seen.now control.old.state }
    ensures home { result ≡ named_home input.now control.old.state }
{
    // A mode is data that the status shows, and its definition is by cases too: a closure would hide which step it is.
    match control.state.motion.mode {
        Mode::Unset | Mode::Down => {}
        Mode::Rest | Mode::Waiting => stand(control),
        Mode::Moving(leg) => travel(control, leg),
        Mode::Settling(endpoint) => {
            let in_band = gap_within(seen.gap, control.state.parameters.band);
            settle(control, endpoint, seen.place, in_band);
        }
        Mode::Dwelling(ticks) => dwell(control, seen.place, ticks),
        Mode::Stopping => slow_down(control, seen.place),
        Mode::Jogging => jog(control, seen),
        Mode::Homing if !input.switch => search_home(
            control,
            Mode::Homing,
            control.state.parameters.home_rate,
            seen,
        ),
        Mode::Homing | Mode::Creeping => return creep(control, input.marker, seen),
    }
    None
}
