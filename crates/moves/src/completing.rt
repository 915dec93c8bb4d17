// Completing a move, and what comes after it.
ghost use Rattle.std.specs.Prelude.{◌≡◌};
ghost use Rattle.moves.specs.Completing.{halts, go_on, complete};

use crate::control::Control;
use crate::moves::Move;
use crate::state::Mode;

// Whether a move asks for a start before the next one.
fn halts(done: Option<Move>) -> bool
    ensures { result ≡ halts done }
{
    done.is_some_and(|done| done.halt)
}

impl Control {
    // After the last move the axis rests, after a halt it waits, and else the next move is set up.
    pub fn go_on(&mut self, place: i32)
        ensures { self.new.state ≡ go_on place self.old.state }
    {
        let current = self.state.program.current;
        let next = current + 1;
        if self.state.program.stored(next).is_none() {
            self.state.motion.mode = Mode::Rest;
        } else if halts(self.state.program.stored(current)) {
            self.state.motion.mode = Mode::Waiting;
        } else {
            self.set_up(place, next);
        }
    }

    // Completes a move that ends at `endpoint`.
    pub fn complete(&mut self, endpoint: i32, place: i32)
        ensures { self.new.state ≡ complete endpoint place self.old.state }
    {
        self.state.coordinates.last_endpoint = self.position_of(endpoint);
        self.go_on(place);
    }
}
