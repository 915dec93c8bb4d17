// The rates of an axis, and the speed that they allow next.
ghost use Rattle.std.specs.Prelude.{◌≡◌, ℕ, ◌-◌, ◌≤◌};
ghost use Rattle.motion.specs.Laws.{PlanningLaws};
ghost use Rattle.motion.specs.Planning.{Planned, PlannedFrom, planned_speed, speed_cap};

use crate::distance::braking_distance;

// The rates in force in one tick: the highest speed, and by how much the speed may rise and fall in the tick.
#[derive(Clone, Copy)]
pub struct Rates {
    pub feedrate: u16,
    pub acceleration: u16,
    pub deceleration: u16,
}

impl Rates {
    // The speed for the next tick, from the present one and the counts up to where the axis has to be at rest.
    pub fn plan(self, speed: u16, room: u64) -> u16
        ensures planned { PlannedFrom self speed room result }
        ensures only { (u : ℕ) → PlannedFrom self speed room u → u ≡ result }
        ensures value { result ≡ planned_speed self speed room }
        ensures within_room { result ≤ room }
    {
        fastest_fitting(self.speed_cap(speed), self.deceleration, room)
    }

    // The speed one tick later if the axis brakes, 0 at the least. The contract also carries the laws of planning,
    // of which `slowing_fits` says that from a planned speed this one fits what is left of the room.
    pub fn slowed(self, speed: u16) -> u16
        ensures value { result ≡ speed - self.deceleration }
        ensures laws { PlanningLaws }
    {
        speed.saturating_sub(self.deceleration)
    }

    // The highest speed that may follow `speed`.
    fn speed_cap(self, speed: u16) -> u16
        ensures { result ≡ speed_cap self speed }
    {
        let raised = speed.saturating_add(self.acceleration).min(self.feedrate);
        raised.max(self.slowed(speed))
    }
}

// The greatest speed up to `top` whose braking distance fits `room`. Braking distances grow with the speed,
// so each turn halves the speeds that are left: a top speed of n binary digits takes at most n turns.
fn fastest_fitting(top: u16, deceleration: u16, room: u64) -> u16
    ensures { Planned top deceleration room result }
{
    let mut low = 0;
    let mut high = top;
    // No slice holds the speeds, so the library's search over a slice does not serve.
    while low < high {
        let middle = high - (high - low) / 2;
        if u64::from(braking_distance(middle, deceleration)) <= room {
            low = middle;
        } else {
            high = middle - 1;
        }
    }
    low
}
