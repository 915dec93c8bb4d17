// Braking distances and the planning of speeds, on plain numbers: which speed an axis takes in its next tick
// so that it can still come to rest within the room that it has.
//
// The rules are stated in specs/: Braking.antt says what a braking distance is, Planning.antt which speed is planned,
// and Laws.antt what planned speeds keep to. Every contract here cites these.
//
// Speeds are counts per tick in a u16, braking distances counts in a u32, rooms counts in a u64. No function asks anything of its input, and nothing
// overflows: the longest braking distance is that of 65,535 at a deceleration of 1, 65,535 × 65,536 ÷ 2 counts.
// The card stays far below: its rates reach 10,154 (7,996 under an override of 127 in 100), its accelerations and
// decelerations 9,999, and its rooms 40,000,000 counts.

#![tactic(auto)]

mod distance;
mod rates;
#[cfg(test)]
mod tests;

pub use distance::braking_distance;
pub use rates::Rates;
