// The state of an axis, with the ranges that it keeps.
ghost use Rattle.std.specs.Prelude.{◌≡◌, ◌^◌, ◌<◌};
ghost use Rattle.moves.specs.Moves.{moves_max};
ghost use Rattle.moves.specs.State.{Within, new_state, position_of};

use crate::state::State;

// The coordinates stay within these ranges whatever the parameters, the moves and the drive are, so that no sum of them
// overflows and no call asks anything of its caller.
#[derive(Drop)]
pub struct Control {
    pub state: State,
    ghost base: { Within (2 ^ 33) state.coordinates.base },
    ghost accumulator: { Within (2 ^ 25) state.coordinates.accumulator },
    ghost last_endpoint: { Within (2 ^ 34) state.coordinates.last_endpoint },
    ghost current: { state.program.current < moves_max },
}

impl Control {
    // An axis before any call.
    pub fn new() -> Control
        ensures { result.state ≡ new_state }
    {
        Control {
            state: State::new(),
        }
    }

    // A place of the drive as a programmed position.
    pub fn position_of(&self, place: i32) -> i64
        ensures value { result ≡ position_of self.now.state.coordinates place }
        ensures within { Within (2 ^ 34) result }
    {
        i64::from(place) - self.state.coordinates.base - self.state.coordinates.accumulator
    }
}
