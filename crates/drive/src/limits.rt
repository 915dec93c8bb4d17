// The ceilings of every drive, and places and gaps that keep them. Sums saturate: what does not fit an `i32` is far beyond
// every ceiling, so it is refused or held all the same.
ghost use Rattle.std.specs.Prelude.{◌≡◌, ◌+ℤ◌, ◌-ℤ◌, neg_ℤ};
ghost use Rattle.drive.specs.Values.{held, gap_ceiling, reach_ceiling, Reached, Within};

use crate::Refusal;

pub(crate) const GAP_CEILING: i32 = 1_000_000;

pub(crate) const REACH_CEILING: i32 = 19_999_999;

// `place`, or a refusal if it is beyond the reach.
pub(crate) fn within_reach(place: i32) -> Result<i32, Refusal>
    ensures { Reached reach_ceiling place result }
{
    if !(-REACH_CEILING..=REACH_CEILING).contains(&place) {
        return Err(Refusal::Beyond);
    }
    Ok(place)
}

// The place that is `counts` from `place`, or a refusal if it is beyond the reach.
pub(crate) fn place_after(place: i32, counts: i32) -> Result<i32, Refusal>
    ensures { Reached reach_ceiling (place +ℤ counts) result }
{
    within_reach(place.saturating_add(counts))
}

// The gap with `counts` added.
// Tried: one function for this and the next, of the saturated or the 64-bit sum; two or four goals of its callers stayed open.
pub(crate) fn held_sum(gap: i32, counts: i32) -> i32
    ensures value { result ≡ held (gap +ℤ counts) }
    ensures within { Within (neg_ℤ gap_ceiling) gap_ceiling result }
{
    gap.saturating_add(counts).clamp(-GAP_CEILING, GAP_CEILING)
}

// The gap with `counts` taken away.
pub(crate) fn held_difference(gap: i32, counts: i32) -> i32
    ensures value { result ≡ held (gap -ℤ counts) }
    ensures within { Within (neg_ℤ gap_ceiling) gap_ceiling result }
{
    gap.saturating_sub(counts).clamp(-GAP_CEILING, GAP_CEILING)
}
