// What is read off a drive after a tick.
ghost use Rattle.std.specs.Prelude.{◌≡◌};
ghost use Rattle.drive.specs.Analog.{analog_values, output_state};
ghost use Rattle.drive.specs.Output.{output_value};
ghost use Rattle.drive.specs.declared.analog.Analog.{Analog};
ghost use Rattle.winder.specs.Readings.{reading};

use drive::{Analog, Drive, Reversed};
use std::fmt;

// A drive with an output.
pub trait Output: Drive {
    // the analog drive whose output it is
    ghost source: { Self → Analog };

    fn output(&self) -> i16
        ensures { result ≡ output_value (output_state (source self.now)) (analog_values (source self.now)).gap };
}

impl Output for Analog {
    ghost source = { λ drive. drive };

    fn output(&self) -> i16 {
        Analog::output(self)
    }
}

// The output of a mount is that of the drive behind it.
impl<D: Output> Output for Reversed<D> {
    ghost source = { λ mount. D.Output.source mount.drive };

    fn output(&self) -> i16 {
        self.below().output()
    }
}

#[derive(Clone, Copy)]
pub struct Reading {
    pub place: i32,
    pub gap: i32,
    pub output: i16,
}

impl Reading {
    pub fn of<D: Output>(drive: &D) -> Reading
        ensures { result ≡ reading (D.Drive.meaning drive.now) (D.Output.source drive.now) }
    {
        Reading {
            place: drive.place(),
            gap: drive.gap(),
            output: drive.output(),
        }
    }
}

impl fmt::Display for Reading {
    fn fmt<W: fmt::Write>(&self, f: &mut fmt::Formatter<W>) -> fmt::Result {
        write!(
            f,
            "place {}, gap {}, output {}",
            self.place, self.gap, self.output
        )
    }
}
