// Dwells: two words with seven digits of milliseconds, and four fixed zeros before them.
ghost use Rattle.std.specs.Prelude.{◌≡◌};
ghost use Rattle.words.specs.Readings.{dwell_reading};

use crate::fault::Fault;
use crate::pair::WordPair;
use crate::word::Bit;

impl WordPair {
    pub fn read_dwell(self) -> Result<u32, Fault>
        ensures { result ≡ dwell_reading self.first self.second }
    {
        let first = self.first;
        if first.has(Bit::B17)
            || first.has(Bit::B16)
            || first.has(Bit::B15)
            || first.has(Bit::B14)
        {
            return Err(first.wrong());
        }
        self.seven_digits()
    }
}
