// Setting up a move.
ghost use Rattle.std.specs.Prelude.{◌≡◌, ◌^◌, ◌<◌};
ghost use Rattle.moves.specs.Moves.{moves_max};
ghost use Rattle.moves.specs.SetUp.{destination, checked, accumulated, target_from, heading, head_for, set_up_travel, set_up_preset, dwell_ticks, set_up};
ghost use Rattle.moves.specs.State.{Within, rest_with};

use crate::control::Control;
use crate::moves::{Action, Travel};
use crate::parameters::Parameters;
use crate::shown::{SHOWN_MAX, base_under};
use crate::state::{Direction, Leg, Mode, Motion, Note, State};
use words::Target;

// Where a move goes: a place of the drive, and the accumulator with which it is reached.
#[derive(Clone, Copy, Debug, PartialEq, Eq)]
pub struct Destination {
    pub accumulator: i64,
    pub endpoint: i32,
}

impl Control {
    // Where a move goes that starts from the last endpoint `from`, or the note that its set-up makes.
    // `from` is the last endpoint or the position of an endpoint, two different numbers of the state, so its range is asked.
    pub(crate) fn destination(&self, from: i64, travel: &Travel) -> Result<Destination, Note>
        requires { Within (2 ^ 34) from }
        ensures { result ≡ destination self.now.state.parameters self.now.state.coordinates from travel.now }
    {
        let accumulator = self.accumulated(travel.with_offset);
        let target = target_from(from, travel.target);
        let endpoint = target + self.state.coordinates.base + accumulator;
        self.state.parameters.checked(accumulator, endpoint)
    }

    // The accumulator with which a move runs.
    fn accumulated(&self, with_offset: bool) -> i64
        ensures value { result ≡ accumulated self.now.state.parameters self.now.state.coordinates.accumulator with_offset }
        ensures within { Within (2 ^ 32) result }
    {
        let accumulator = self.state.coordinates.accumulator;
        if with_offset {
            accumulator + i64::from(self.state.parameters.offset)
        } else {
            accumulator
        }
    }
}

impl Parameters {
    // The destination, unless it is beyond what can be shown or reached.
    fn checked(&self, accumulator: i64, endpoint: i64) -> Result<Destination, Note>
        ensures { result ≡ checked self.now accumulator endpoint }
    {
        if SHOWN_MAX < accumulator.unsigned_abs() {
            return Err(Note::OutOfRange);
        }
        // Tried as `contains` of the range from `low` to `high`; the proof did not close.
        if endpoint < i64::from(self.low) || i64::from(self.high) < endpoint {
            return Err(Note::OutsideLimits);
        }
        let endpoint = endpoint as i32;
        Ok(Destination {
            accumulator,
            endpoint,
        })
    }
}

// The position itself, or so many counts on from the last endpoint.
// `from` is that of `destination`, and its range is asked for the same reason.
fn target_from(from: i64, target: Target) -> i64
    requires { Within (2 ^ 34) from }
    ensures value { result ≡ target_from from target }
    ensures within { Within (2 ^ 35) result }
{
    match target {
        Target::Absolute(position) => i64::from(position),
        Target::Incremental(counts) => from + i64::from(counts),
    }
}

impl Motion {
    // Toward an endpoint: at it already, the axis settles; else it moves there.
    fn head(&mut self, place: i32, endpoint: i32)
        ensures { self.new ≡ heading place endpoint self.old }
    {
        let length = endpoint.abs_diff(place);
        if length == 0 {
            self.mode = Mode::Settling(endpoint);
        } else {
            self.mode = Mode::Moving(Leg {
                endpoint,
                left: length,
                length,
            });
            self.direction = if endpoint < place {
                Direction::Minus
            } else {
                Direction::Plus
            };
        }
    }
}

// How many ticks a dwell lasts.
fn dwell_ticks(milliseconds: u32) -> u32
    ensures { result ≡ dwell_ticks milliseconds }
{
    (5 * u64::from(milliseconds)).div_ceil(12) as u32
}

impl State {
    fn rest_with(&mut self, why: Note)
        ensures { self.new ≡ rest_with why self.old }
    {
        self.motion.mode = Mode::Rest;
        self.note = Some(why);
    }

    fn head_for(&mut self, place: i32, index: u8, destination: Destination)
        ensures { self.new ≡ head_for place index destination self.old }
    {
        self.motion.head(place, destination.endpoint);
        self.coordinates.accumulator = destination.accumulator;
        self.program.current = index;
    }
}

impl Control {
    // Setting up the move of that index; where there is none, nothing changes.
    pub fn set_up(&mut self, place: i32, index: u8)
        ensures { self.new.state ≡ set_up place index self.old.state }
    {
        if let Some(chosen) = self.state.program.stored(index) {
            match chosen.action {
                Action::Travel(travel) => self.set_up_travel(place, index, &travel),
                Action::Preset(preset) => self.set_up_preset(place, index, preset),
                Action::Dwell(milliseconds) => {
                    self.state.motion.mode = Mode::Dwelling(dwell_ticks(milliseconds));
                    self.state.program.current = index;
                }
            }
        }
    }

    // A move or a move with offset, as move `index`.
    // Place and index are the arguments of the definition of a set-up: a place of the drive and the number of a move.
    fn set_up_travel(&mut self, place: i32, index: u8, travel: &Travel)
        requires { index < moves_max }
        ensures { self.new.state ≡ set_up_travel place index travel.now self.old.state }
    {
        match self.destination(self.state.coordinates.last_endpoint, travel) {
            Ok(destination) => self.state.head_for(place, index, destination),
            Err(note) => self.state.rest_with(note),
        }
    }

    // A preset, as move `index`.
    // Place and index are the arguments of the definition here too.
    fn set_up_preset(&mut self, place: i32, index: u8, preset: i32)
        requires { index < moves_max }
        ensures { self.new.state ≡ set_up_preset place index preset self.old.state }
    {
        let base = base_under(place, preset);
        if self.state.parameters.limits_show(base) {
            self.state.motion.mode = Mode::Settling(place);
            self.state.coordinates.base = base;
            self.state.coordinates.accumulator = 0;
            self.state.program.current = index;
        } else {
            self.state.rest_with(Note::OutOfRange);
        }
    }
}
