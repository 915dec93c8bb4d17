// The rates in force.
ghost use Rattle.std.specs.Prelude.{◌≡◌};
ghost use Rattle.modes.specs.Rates.{rates_at, feedrate_of, scaled, move_rates};

use motion::Rates;
use moves::{Action, Control, Move};

// The feedrate of a move: its own, or else the given one.
fn feedrate_of(given: u16, under_way: Option<Move>) -> u16
    ensures { result ≡ feedrate_of given under_way }
{
    // An and_then would hold this same pattern.
    match under_way {
        Some(
            Move {
                action: Action::Travel(travel),
                ..
            },
        ) => travel.feedrate.unwrap_or(given),
        _ => given,
    }
}

// A feedrate under an override in hundredths, rounded down.
fn scaled(feedrate: u16, percent: u8) -> u16
    ensures { result ≡ scaled feedrate percent }
{
    let rate = u32::from(feedrate) * u32::from(percent) / 100;
    u16::try_from(rate).unwrap_or(u16::MAX)
}

pub(crate) fn rates_at(control: &Control, feedrate: u16) -> Rates
    ensures { result ≡ rates_at feedrate control.now.state }
{
    Rates {
        feedrate,
        acceleration: control.state.parameters.acceleration,
        deceleration: control.state.parameters.deceleration,
    }
}

// The rates of the move under way.
pub(crate) fn move_rates(control: &Control) -> Rates
    ensures { result ≡ move_rates control.now.state }
{
    let under_way = control.state.program.stored(control.state.program.current);
    let feedrate = feedrate_of(control.state.parameters.feedrate, under_way);
    rates_at(control, scaled(feedrate, control.state.override_percent))
}
