// Dwells, read as words 60 and 61 of a moveset of axis 1.
use crate::cases::{Pair, Place, print_answers};
use std::io;
use words::{AxisId, WordPair};

const PLACE: Place = Place {
    axis: AxisId::One,
    first: 60,
    second: 61,
};

const DWELLS: [Pair; 33] = [
    Pair(0x0000, 0x0000),
    Pair(0x0000, 0x0019),
    Pair(0x0000, 0x0020),
    Pair(0x0000, 0x0024),
    Pair(0x0000, 0x0025),
    Pair(0x0000, 0x1500),
    Pair(0x0001, 0x0000),
    Pair(0x0010, 0x0000),
    Pair(0x0100, 0x0000),
    Pair(0x0123, 0x4567),
    Pair(0x0999, 0x9990),
    Pair(0x0999, 0x9999),
    // each fixed bit, and all of them
    Pair(0x1000, 0x0020),
    Pair(0x2000, 0x0020),
    Pair(0x4000, 0x0020),
    Pair(0x8000, 0x0020),
    Pair(0xF000, 0x0020),
    // a digit over 9 at every place
    Pair(0x0A00, 0x0020),
    Pair(0x00A0, 0x0020),
    Pair(0x000A, 0x0020),
    Pair(0x0F00, 0x0020),
    Pair(0x00F0, 0x0020),
    Pair(0x000F, 0x0020),
    Pair(0x0000, 0xA000),
    Pair(0x0000, 0x0A00),
    Pair(0x0000, 0x00A0),
    Pair(0x0000, 0x000A),
    Pair(0x0999, 0xF990),
    Pair(0x0999, 0x999F),
    // both words are wrong: the first is named
    Pair(0x1000, 0x000A),
    Pair(0x8000, 0xA000),
    Pair(0x0B00, 0x00B0),
    Pair(0xFFFF, 0xFFFF),
];

pub fn print_dwells(rt: &impl Print) -> io::Result<()> {
    print_answers(rt, "dwell", PLACE, &DWELLS, WordPair::read_dwell)
}
