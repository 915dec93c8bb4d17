// A move under way, planned tick by tick.
ghost use Rattle.std.specs.Prelude.{◌≡◌};
ghost use Rattle.winder.specs.Travel.{new_move, next_step, advanced};

use motion::Rates;
use moves::Direction;

#[derive(Clone, Copy)]
pub struct Move {
    // the counts that are left
    pub left: u32,
    // the size of the latest step
    pub speed: u16,
    pub direction: Direction,
}

impl Move {
    // A move by `counts`, at rest as yet.
    pub fn new(counts: i32) -> Move
        ensures { result ≡ new_move counts }
    {
        Move {
            left: counts.unsigned_abs(),
            speed: 0,
            direction: if counts < 0 {
                Direction::Minus
            } else {
                Direction::Plus
            },
        }
    }

    // Plans the speed of this tick, takes it off what is left, and answers the step.
    pub fn advance(&mut self, rates: Rates) -> i32
        ensures step { result ≡ next_step rates self.old }
        ensures after { self.new ≡ advanced rates self.old }
    {
        self.speed = rates.plan(self.speed, u64::from(self.left));
        self.left -= u32::from(self.speed);
        self.direction.signed(self.speed)
    }
}
