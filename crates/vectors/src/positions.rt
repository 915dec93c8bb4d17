// Positions without an incremental mark, read as words 3 and 4 of a record of axis 2; and positions written.
use crate::cases::{Pair, Place, print_answers};
use std::io;
use words::{AxisId, PositionWords, WordPair, write_position};

const PLACE: Place = Place {
    axis: AxisId::Two,
    first: 3,
    second: 4,
};

const POSITIONS: [Pair; 45] = [
    // every place, and the sign
    Pair(0x0000, 0x0000),
    Pair(0x8000, 0x0000),
    Pair(0x0000, 0x0001),
    Pair(0x0000, 0x0010),
    Pair(0x0000, 0x0100),
    Pair(0x0000, 0x1000),
    Pair(0x0001, 0x0000),
    Pair(0x0010, 0x0000),
    Pair(0x0100, 0x0000),
    Pair(0x1000, 0x0000),
    Pair(0x8000, 0x0001),
    Pair(0x9000, 0x0000),
    Pair(0x8001, 0x2345),
    Pair(0x1234, 0x5678),
    Pair(0x9876, 0x5432),
    Pair(0x0999, 0x9999),
    Pair(0x8999, 0x9999),
    Pair(0x1999, 0x9999),
    Pair(0x9999, 0x9999),
    // a fixed bit on, alone and beside other bits
    Pair(0x2000, 0x0000),
    Pair(0x4000, 0x0000),
    Pair(0x6000, 0x0000),
    Pair(0xA000, 0x0250),
    Pair(0xC001, 0x2345),
    Pair(0xF999, 0x9999),
    // ten and fifteen at every place of the first word
    Pair(0x0A00, 0x0000),
    Pair(0x00A0, 0x0000),
    Pair(0x000A, 0x0000),
    Pair(0x0F00, 0x0000),
    Pair(0x00F0, 0x0000),
    Pair(0x000F, 0x0000),
    // ten and fifteen at every place of the second word
    Pair(0x0000, 0xA000),
    Pair(0x0000, 0x0A00),
    Pair(0x0000, 0x00A0),
    Pair(0x0000, 0x000A),
    Pair(0x0000, 0xF000),
    Pair(0x0000, 0x0F00),
    Pair(0x0000, 0x00F0),
    Pair(0x0000, 0x000F),
    Pair(0x1999, 0x999A),
    Pair(0x8001, 0x23F5),
    // both words are wrong: the first is named
    Pair(0xA000, 0x000A),
    Pair(0x4000, 0xFFFF),
    Pair(0x000B, 0xB000),
    Pair(0xFFFF, 0xFFFF),
];

const WRITTEN: [i32; 23] = [
    0,
    1,
    -1,
    9,
    -10,
    9_999,
    10_000,
    -10_000,
    -12_345,
    250,
    999_999,
    1_000_000,
    9_999_999,
    10_000_000,
    -10_000_000,
    12_345_678,
    -19_876_543,
    19_999_999,
    -19_999_999,
    20_000_000,
    -20_000_000,
    i32::MAX,
    i32::MIN,
];

pub fn print_positions(rt: &impl Print) -> io::Result<()> {
    print_answers(rt, "position", PLACE, &POSITIONS, WordPair::read_position)
}

pub fn print_written(rt: &impl Print) -> io::Result<()> {
    for counts in WRITTEN {
        match write_position(counts) {
            Some(PositionWords { first, second }) => println!(rt;
                "written {counts} = {first:04X} {second:04X}"
            )?,
            None => println!(rt; "written {counts} = none")?,
        }
    }
    Ok(())
}
