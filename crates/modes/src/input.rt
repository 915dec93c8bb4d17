// What an axis is told in a tick, and what its drive shows then.

#[derive(Clone, Copy, Debug, PartialEq, Eq)]
pub struct Input {
    // what its encoder counted since the tick before
    pub counts: i16,
    // the stop input
    pub stop: bool,
    // whether the power stage of the drive is ready
    pub ready: bool,
    // the home switch
    pub switch: bool,
    // the marker that the encoder gives once in each turn
    pub marker: bool,
}

// Handed on beside the control of its axis, as a place or a leg is: a struct of both would hold a reference to change and one to
// read, and every clause would name both through it.
#[derive(Clone, Copy, Debug, PartialEq, Eq)]
pub struct Seen {
    pub place: i32,
    pub gap: i32,
    pub reach: i32,
}
