// The positions of moves, which may be incremental, read as words 2 and 3 of a moveset of axis 3.
use crate::cases::{Pair, Place, print_answers};
use std::{fmt, io};
use words::{AxisId, Target};

const PLACE: Place = Place {
    axis: AxisId::Three,
    first: 2,
    second: 3,
};

const TARGETS: [Pair; 32] = [
    // without the mark and with it
    Pair(0x0000, 0x0000),
    Pair(0x2000, 0x0000),
    Pair(0x8000, 0x0000),
    Pair(0xA000, 0x0000),
    Pair(0x0000, 0x0250),
    Pair(0x2000, 0x0250),
    Pair(0x8000, 0x0250),
    Pair(0xA000, 0x0250),
    Pair(0x1234, 0x5678),
    Pair(0x3234, 0x5678),
    Pair(0x9234, 0x5678),
    Pair(0xB234, 0x5678),
    Pair(0x3999, 0x9999),
    Pair(0xB999, 0x9999),
    // the fixed bit
    Pair(0x4000, 0x0000),
    Pair(0x6000, 0x0250),
    Pair(0xC000, 0x0250),
    Pair(0xE000, 0x0000),
    // a digit over 9 at every place
    Pair(0x2A00, 0x0000),
    Pair(0x20A0, 0x0000),
    Pair(0x200A, 0x0000),
    Pair(0x0F00, 0x0000),
    Pair(0x00F0, 0x0000),
    Pair(0x000F, 0x0000),
    Pair(0x2000, 0xA000),
    Pair(0x2000, 0x0A00),
    Pair(0x2000, 0x00A0),
    Pair(0x2000, 0x000A),
    Pair(0xA999, 0x999F),
    // both words are wrong: the first is named
    Pair(0x6000, 0x000A),
    Pair(0x200F, 0xF000),
    Pair(0xFFFF, 0xFFFF),
];

// A target as its counts, marked where they are incremental.
#[derive(Clone, Copy)]
struct Counts(Target);

impl fmt::Display for Counts {
    fn fmt<W: fmt::Write>(&self, f: &mut fmt::Formatter<W>) -> fmt::Result {
        match self.0 {
            Target::Absolute(counts) => write!(f, "{counts}"),
            Target::Incremental(counts) => write!(f, "{counts} incremental"),
        }
    }
}

pub fn print_targets(rt: &impl Print) -> io::Result<()> {
    print_answers(
        rt,
        "target",
        PLACE,
        &TARGETS,
        |pair| pair.read_target().map(Counts),
    )
}
