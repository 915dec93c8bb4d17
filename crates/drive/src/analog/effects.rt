// What the calls of a drive do to an analog one. What becomes of the latest step and the gains is the field `output` of
// `AnalogObeys`, which the trait's clause `obeyed` promises of each order.
ghost use Rattle.drive.specs.Analog.{AnalogObeys, analog_values};
ghost use Rattle.std.proofs.Common.{rules};

use super::Analog;
use crate::limits::{REACH_CEILING, held_difference, held_sum, place_after, within_reach};
use crate::{Drive, Refusal};

impl Drive for Analog {
    ghost meaning = { analog_values };

    ghost obeys = { AnalogObeys };

    ghost lawful = { Prim.search rules };

    fn step(&mut self, counts: i32) -> Result<(), Refusal> {
        if !self.awake {
            return Err(Refusal::Asleep);
        }
        self.place = place_after(self.place, counts)?;
        self.gap = held_sum(self.gap, counts);
        self.latest = counts;
        Ok(())
    }

    fn feel(&mut self, counts: i32, ready: bool) {
        self.gap = held_difference(self.gap, counts);
        if !ready {
            self.sleep();
        }
    }

    fn name(&mut self, place: i32) -> Result<(), Refusal> {
        self.place = within_reach(place)?;
        self.latest = 0;
        Ok(())
    }

    fn wake(&mut self) {
        self.gap = 0;
        self.set_awake(true);
    }

    fn sleep(&mut self) {
        self.set_awake(false);
    }

    fn place(&self) -> i32 {
        self.place
    }

    fn gap(&self) -> i32 {
        self.gap
    }

    fn awake(&self) -> bool {
        self.awake
    }

    fn reach(&self) -> i32 {
        REACH_CEILING
    }
}
