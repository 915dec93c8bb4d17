// Moving, and running into a partner.
ghost use Rattle.std.specs.Prelude.{◌≡◌, ◌+◌, ◌≤◌};
ghost use Rattle.moves.specs.Partner.{Joins};
ghost use Rattle.modes.specs.Travel.{nearer, second_leg, blend, follow, travel};

use crate::rates::move_rates;
use moves::{Control, Leg, Mode, Partner, partner_length};

// A leg, so many counts nearer its end.
fn nearer(leg: Leg, counts: u16) -> Leg
    requires { counts ≤ leg.left }
    ensures { result ≡ nearer leg counts }
{
    Leg {
        left: leg.left - u32::from(counts),
        ..leg
    }
}

// The partner as the leg under way, with what is left of both.
fn second_leg(leg: Leg, partner: &Partner, counts: u16) -> Leg
    requires { (leg.left ≤ counts) × (counts ≤ leg.left + partner.now.length) }
    ensures { result ≡ second_leg leg partner.now counts }
{
    Leg {
        endpoint: partner.destination.endpoint,
        left: partner.length - (u32::from(counts) - leg.left),
        length: partner.length,
    }
}

// The move is completed, and its partner is the current one.
fn blend(control: &mut Control, leg: &Leg, partner: &Partner)
    requires { Joins control.old.state partner.now }
    ensures { control.new.state ≡ blend leg.now partner.now control.old.state }
{
    control.state.coordinates.last_endpoint = control.position_of(leg.endpoint);
    control.state.coordinates.accumulator = partner.destination.accumulator;
    control.state.program.current += 1;
}

// Along a leg at a speed; at its end the axis settles, unless it has a partner to run into.
fn follow(control: &mut Control, leg: Leg, speed: u16)
    ensures { control.new.state ≡ follow leg speed control.old.state }
{
    control.state.motion.mode = Mode::Moving(leg);
    control.state.motion.speed = speed;
    if leg.left == 0 && control.partner(&leg).is_none() {
        control.state.motion.mode = Mode::Settling(leg.endpoint);
    }
}

// The room is what is left of the move, and its partner's length. A speed of at least what is left runs into the partner.
pub(crate) fn travel(control: &mut Control, leg: Leg)
    ensures { control.new.state ≡ travel leg control.old.state }
{
    let partner = control.partner(&leg);
    let room = u64::from(leg.left) + u64::from(partner_length(&partner));
    let speed = move_rates(control).plan(control.state.motion.speed, room);
    match partner {
        Some(partner) if leg.left <= u32::from(speed) => {
            blend(control, &leg, &partner);
            follow(control, second_leg(leg, &partner, speed), speed);
        }
        _ => follow(control, nearer(leg, speed), speed),
    }
}
