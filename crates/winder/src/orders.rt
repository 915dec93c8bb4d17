// What the program tells the axis before a tick, and what the axis is told in one.
ghost use Rattle.std.specs.Prelude.{◌≡◌};
ghost use Rattle.winder.specs.Orders.{next_order, order_at_rest, is_over, input_at, step_given, reported};

use modes::{Command, Input};
use moves::{Mode, Motion, State};

// An order is answered and printed beside being given, so it is data and no closure.
#[derive(Clone, Copy)]
pub enum Order {
    // hands the parameters over
    SetParameters,
    Command(Command),
    // hands the moveset over and begins it
    Wind,
}

// The order before the next tick, if there is one.
pub fn next_order(state: &State) -> Option<Order>
    ensures { result ≡ next_order state.now }
{
    match state.motion.mode {
        Mode::Unset => Some(Order::SetParameters),
        Mode::Down => Some(Order::Command(Command::Reset)),
        Mode::Rest => order_at_rest(state),
        Mode::Waiting => Some(Order::Command(Command::Start)),
        _ => None,
    }
}

fn order_at_rest(state: &State) -> Option<Order>
    ensures { result ≡ order_at_rest state.now }
{
    if !state.homed {
        return Some(Order::Command(Command::SearchHome));
    }
    state.program.moveset.is_none().then_some(Order::Wind)
}

// The axis noted why it came to rest or went down, or it is at rest behind its moveset.
pub fn is_over(state: &State) -> bool
    ensures { result ≡ is_over state.now }
{
    let at_rest = state.motion.mode == Mode::Rest;
    state.note.is_some() || at_rest && state.homed && state.program.moveset.is_some()
}

// The home switch is on from this tick.
const SWITCH_ON: u32 = 6;

// The marker comes with every such tick.
const MARKER_EVERY: u32 = 5;

pub fn input_at(tick: u32, counts: i16) -> Input
    ensures { result ≡ input_at tick counts }
{
    Input {
        counts,
        stop: false,
        ready: true,
        switch: tick >= SWITCH_ON,
        marker: tick % MARKER_EVERY == 0,
    }
}

// The step that the tick gave which left the axis so. An axis without parameters or down was given none.
pub fn step_given(motion: Motion) -> Option<i32>
    ensures { result ≡ step_given motion }
{
    match motion.mode {
        Mode::Unset | Mode::Down => None,
        _ => Some(motion.step()),
    }
}

// What an encoder of 16 bits reports of a step.
pub fn reported(step: Option<i32>) -> i16
    ensures { result ≡ reported step }
{
    step.map_or(0, |counts| counts.clamp(-32_768, 32_767) as i16)
}
