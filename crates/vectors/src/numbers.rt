// Number words, read as word 9 of a record of axis 1.
use crate::cases::Answer;
use std::io;
use words::{AxisId, Word};

const NUMBERS: [u16; 22] = [
    // every place, and every digit
    0x0000, 0x0001, 0x0010, 0x0100, 0x1000, 0x1234, 0x5678, 0x9876, 0x0127, 0x7996, 0x9090, 0x9999,
    // ten and fifteen at every place, and more than one wrong digit
    0x000A, 0x00A0, 0x0A00, 0xA000, 0x000F, 0x00F0, 0x0F00, 0xF000, 0x9BC9, 0xFFFF,
];

pub fn print_numbers(rt: &impl Print) -> io::Result<()> {
    for bits in NUMBERS {
        let word = Word {
            bits,
            axis: AxisId::One,
            index: 9,
        };
        let answer = Answer(word.four_digits());
        println!(rt; "number {bits:04X} {answer}")?;
    }
    Ok(())
}
