// The partner of a move: the move after it, where the axis may run into it without coming to rest.
ghost use Rattle.std.specs.Prelude.{◌≡◌, IfSome};
ghost use Rattle.moves.specs.Partner.{leads, runs_on, joined, partner_by, partner, partner_length, Joins};

use crate::control::Control;
use crate::moves::{Action, Move};
use crate::set_up::Destination;
use crate::state::{Direction, Leg, Note};

#[derive(Clone, Copy, Debug, PartialEq, Eq)]
pub struct Partner {
    pub destination: Destination,
    // its length from the endpoint of the move before it
    pub length: u32,
}

impl Direction {
    // Whether the way from one place to another has a length and runs in this direction.
    fn leads(self, from: i32, to: i32) -> bool
        ensures { result ≡ leads self from to }
    {
        match self {
            Direction::Plus => from < to,
            Direction::Minus => to < from,
        }
    }

    // The next move, if it would be set up without a note, has a length from this endpoint and runs the same way.
    fn joined(self, endpoint: i32, next: Result<Destination, Note>) -> Option<Partner>
        ensures { result ≡ joined self endpoint next }
    {
        let destination = next.ok()?;
        self.leads(endpoint, destination.endpoint)
            .then_some(Partner {
                destination,
                length: destination.endpoint.abs_diff(endpoint),
            })
    }
}

impl Move {
    // Whether this move, under way, may run into the next one.
    fn runs_on(&self, leg: &Leg) -> bool
        ensures { result ≡ runs_on self.now leg.now }
    {
        self.continuous && !self.halt && 0 < leg.length
    }
}

impl Control {
    // The partner of the move under way.
    #[tactic(auto, using(crate::proofs::Destinations::partner_by_within))]
    pub fn partner(&self, leg: &Leg) -> Option<Partner>
        ensures value { result ≡ partner self.now.state leg.now }
        ensures joins { IfSome result (Joins self.now.state) }
    {
        let program = &self.state.program;
        let this = program.stored(program.current)?;
        let next = program.stored(program.current + 1)?;
        if this.runs_on(leg) {
            self.partner_by(leg, &next.action)
        } else {
            None
        }
    }

    // Presets and dwells are no partners.
    fn partner_by(&self, leg: &Leg, next: &Action) -> Option<Partner>
        ensures { result ≡ partner_by self.now.state leg.now next.now }
    {
        match next {
            Action::Travel(travel) => {
                let next = self.destination(self.position_of(leg.endpoint), travel);
                self.state.motion.direction.joined(leg.endpoint, next)
            }
            Action::Preset(_) | Action::Dwell(_) => None,
        }
    }
}

// The counts that a partner adds to the room.
pub fn partner_length(partner: &Option<Partner>) -> u32
    ensures { result ≡ partner_length partner.now }
{
    partner.map_or(0, |partner| partner.length)
}
