// The records of a block, by the axes that they are for.

use words::ByAxis;

// A record, with the index of its first word, which the questions about the state of its axis name.
#[derive(Clone, Copy)]
pub struct Record<T> {
    pub word: usize,
    pub value: T,
}

// The record of each axis, None where the block has none. Axes rise in a block, so this is also their order in it.
pub type Records<T> = ByAxis<Option<Record<T>>>;

// Where the record of each axis starts.
pub type Starts = ByAxis<Option<usize>>;
