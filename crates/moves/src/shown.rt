// What can be shown as a position.
ghost use Rattle.std.specs.Prelude.{◌≡◌, ◌^◌, not, ◌-ℤ◌};
ghost use Rattle.moves.specs.SetUp.{limits_show};
ghost use Rattle.moves.specs.State.{Within, beyond_shown};

use crate::parameters::Parameters;

// The largest size of a position that can be shown.
pub(crate) const SHOWN_MAX: u64 = 19_999_999;

impl Parameters {
    // Whether both limits can be shown as positions under that base.
    pub(crate) fn limits_show(&self, base: i64) -> bool
        ensures { result ≡ limits_show self.now base }
    {
        shows(self.low, base) && shows(self.high, base)
    }
}

// Whether a place can be shown as a position under that base.
fn shows(place: i32, base: i64) -> bool
    ensures { result ≡ not (beyond_shown (place -ℤ base)) }
{
    i64::from(place).abs_diff(base) <= SHOWN_MAX
}

// The base under which a place has that position.
pub fn base_under(place: i32, position: i32) -> i64
    ensures value { result ≡ place -ℤ position }
    ensures within { Within (2 ^ 33) result }
{
    i64::from(place) - i64::from(position)
}
