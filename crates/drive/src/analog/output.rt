// The analog drive's output.
ghost use Rattle.std.specs.Prelude.{◌≡◌, ◌+ℤ◌, ◌*ℤ◌, neg_ℤ};
ghost use Rattle.drive.specs.Analog.{analog_values, output_state};
ghost use Rattle.drive.specs.Output.{output_ceiling, output_value, toward_zero};
ghost use Rattle.drive.specs.Values.{nearest};

use super::Analog;

const OUTPUT_CEILING: i64 = 32_000;

impl Analog {
    pub fn output(&self) -> i16
        ensures { result ≡ output_value (output_state self.now) (analog_values self.now).gap }
    {
        held_output(thousandth(self.weighted_sum()))
    }

    // The step that the output follows: 0 from sleep, wake or a name until the next step.
    pub fn latest_step(&self) -> i32
        ensures { result ≡ (output_state self.now).latest }
    {
        self.latest
    }

    // Gains are below ten thousand, so both products and their sum fit an `i64`.
    fn weighted_sum(&self) -> i64
        ensures { result ≡ (self.now.k1 *ℤ self.now.gap) +ℤ (self.now.k2 *ℤ self.now.latest) }
    {
        i64::from(self.k1) * i64::from(self.gap) + i64::from(self.k2) * i64::from(self.latest)
    }
}

fn thousandth(sum: i64) -> i64
    ensures { result ≡ toward_zero sum 1000 }
{
    sum / 1_000
}

fn held_output(value: i64) -> i16
    ensures { result ≡ nearest (neg_ℤ output_ceiling) output_ceiling value }
{
    value.clamp(-OUTPUT_CEILING, OUTPUT_CEILING) as i16
}
