// One move on two drives.
ghost use Rattle.std.specs.Prelude.{◌≡◌, Decides};
ghost use Rattle.winder.specs.Benches.{Begun, Ticked, Done, analog_reading, reversed_reading};

use crate::reading::Reading;
use crate::servo::Servo;
use crate::travel::Move;
use drive::{Analog, Drive, Refusal, Reversed};
use motion::Rates;

// The gains of both analog drives, in thousandths.
pub const GAP_GAIN: i32 = 1_000;

pub const STEP_GAIN: i32 = 500;

#[derive(Clone, Copy)]
pub struct Bench {
    pub travel: Move,
    pub analog: Servo<Analog>,
    pub reversed: Servo<Reversed<Analog>>,
}

impl Bench {
    // Both drives awake, and a move by `counts` before them.
    pub fn new(counts: i32) -> Bench
        ensures { Begun counts result }
    {
        let mut drive = Analog::new(GAP_GAIN, STEP_GAIN);
        drive.wake();
        Bench {
            travel: Move::new(counts),
            analog: Servo::new(drive),
            reversed: Servo::new(Reversed::new(drive)),
        }
    }

    // One tick of the move and of both drives. The answer is the step.
    pub fn tick(&mut self, rates: Rates) -> Result<i32, Refusal>
        ensures { Ticked rates self.old self.new result }
    {
        let step = self.travel.advance(rates);
        let analog = self.analog.tick(step);
        let reversed = self.reversed.tick(step);
        analog?;
        reversed?;
        Ok(step)
    }

    // Nothing is left, the speed is 0, and the encoders have reported every step.
    pub fn is_done(&self) -> bool
        ensures { Decides result (Done self.now) }
    {
        let at_rest = self.travel.left == 0 && self.travel.speed == 0;
        at_rest && self.analog.drive.gap() == 0 && self.reversed.drive.gap() == 0
    }

    pub fn analog_reading(&self) -> Reading
        ensures { result ≡ analog_reading self.now }
    {
        Reading::of(&self.analog.drive)
    }

    // Place and gap are those of the mount, the output is that of the drive behind it.
    pub fn reversed_reading(&self) -> Reading
        ensures { result ≡ reversed_reading self.now }
    {
        Reading::of(&self.reversed.drive)
    }
}
