// The modes in which an axis stands or comes to a stand.
ghost use Rattle.std.specs.Prelude.{◌≡◌};
ghost use Rattle.modes.specs.Standing.{still, dwell, gap_within, settle, slow_down};

use moves::{Control, Mode};

// The same mode, with no step.
pub(crate) fn stand(control: &mut Control)
    ensures { control.new.state ≡ still control.old.state }
{
    control.state.motion.speed = 0;
}

// One tick fewer, and at 0 the dwell is completed.
pub(crate) fn dwell(control: &mut Control, place: i32, ticks: u32)
    ensures { control.new.state ≡ dwell place ticks control.old.state }
{
    stand(control);
    if ticks <= 1 {
        control.go_on(place);
    } else {
        control.state.motion.mode = Mode::Dwelling(ticks - 1);
    }
}

// Whether the size of a gap is at most a limit.
pub fn gap_within(gap: i32, limit: u16) -> bool
    ensures { result ≡ gap_within gap limit }
{
    gap.unsigned_abs() <= u32::from(limit)
}

// The move is completed once the gap is within the band.
pub(crate) fn settle(control: &mut Control, endpoint: i32, place: i32, in_band: bool)
    ensures { control.new.state ≡ settle endpoint place in_band control.old.state }
{
    stand(control);
    if in_band {
        control.complete(endpoint, place);
    }
}

// The speed falls by the deceleration; at 0 the axis rests, and its last endpoint is where it stands.
pub(crate) fn slow_down(control: &mut Control, place: i32)
    ensures { control.new.state ≡ slow_down place control.old.state }
{
    if control.state.motion.speed <= control.state.parameters.deceleration {
        control.state.motion.mode = Mode::Rest;
        control.state.motion.speed = 0;
        control.state.coordinates.last_endpoint = control.position_of(place);
    } else {
        control.state.motion.mode = Mode::Stopping;
        control.state.motion.speed -= control.state.parameters.deceleration;
    }
}
