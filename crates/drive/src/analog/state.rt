// How an analog drive begins, and how it is put awake or asleep.
ghost use Rattle.std.specs.Prelude.{◌≡◌};
ghost use Rattle.drive.specs.Analog.{analog_values, output_state};
ghost use Rattle.drive.specs.Output.{new_output, latest_cleared};
ghost use Rattle.drive.specs.Values.{new_drive, reach_ceiling, with_awake};

use super::Analog;

const GAIN_CEILING: i32 = 9_999;

impl Analog {
    // `k1` is the gain of the gap and `k2` that of the latest step, in thousandths; the nearest that is allowed is taken.
    pub fn new(k1: i32, k2: i32) -> Analog
        ensures values { analog_values result ≡ new_drive reach_ceiling }
        ensures output { output_state result ≡ new_output k1 k2 }
    {
        Analog {
            place: 0,
            gap: 0,
            awake: false,
            latest: 0,
            k1: k1.clamp(0, GAIN_CEILING),
            k2: k2.clamp(0, GAIN_CEILING),
        }
    }

    // Either way, the output no longer follows the latest step.
    pub(super) fn set_awake(&mut self, awake: bool)
        ensures after { analog_values self.new ≡ with_awake (analog_values self.old) awake }
        ensures output { output_state self.new ≡ latest_cleared (output_state self.old) }
    {
        self.awake = awake;
        self.latest = 0;
    }
}
