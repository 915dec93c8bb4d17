// A drive with the encoder on its motor.
ghost use Rattle.std.specs.Prelude.{◌≡◌};
ghost use Rattle.winder.specs.Servos.{servo_state, servo_new, servo_answer, servo_ticked};

use drive::{Drive, Refusal};
use std::mem;

// The encoder reports each step one tick late.
#[derive(Clone, Copy, Drop)]
pub struct Servo<D> {
    pub drive: D,
    // the counts that the encoder reports next
    pub unreported: i32,
}

impl<D: Drive> Servo<D> {
    pub fn new(drive: D) -> Servo<D>
        ensures drive { result.drive ≡ drive }
        ensures state { servo_state D.meaning result ≡ servo_new (D.meaning drive) }
    {
        Servo {
            drive,
            unreported: 0,
        }
    }

    // One tick: the encoder reports, then the drive is stepped.
    pub fn tick(&mut self, step: i32) -> Result<(), Refusal>
        ensures answer { result ≡ servo_answer (servo_state D.meaning self.old) step }
        ensures after { servo_state D.meaning self.new ≡ servo_ticked (servo_state D.meaning self.old) step }
    {
        self.drive.feel(mem::take(&mut self.unreported), true);
        self.drive.step(step)?;
        self.unreported = step;
        Ok(())
    }
}
