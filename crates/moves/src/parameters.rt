// What a parameter record sets for an axis.

// Limits and home are places of the drive, the offset is in counts, rates are counts per tick.
#[derive(Clone, Copy, Debug, Default, PartialEq, Eq)]
pub struct Parameters {
    pub low: i32,
    pub high: i32,
    pub home: i32,
    // what a move with offset adds to the accumulator
    pub offset: i32,
    pub feedrate: u16,
    pub acceleration: u16,
    pub deceleration: u16,
    pub jog_rate: u16,
    pub home_rate: u16,
    pub creep_rate: u16,
    // the largest size of the gap at which a move has arrived
    pub band: u16,
    // the largest size of the gap that does not take the axis down
    pub following_limit: u16,
}
