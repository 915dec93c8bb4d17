// What the 16-bit words of the card's data table spell: number words, positions and dwells,
// and the fault that every refusal is.
//
// specs/Faults.antt gives each question and each axis its number and says how a refusal is printed, specs/Axes.antt has what is
// had for each axis, specs/Block.antt the words of a block, specs/Words.antt what the digits and bits of words mean,
// specs/Readings.antt what each reader answers, and specs/Written.antt how a position is written.

#![tactic(auto)]

pub mod axis;
pub mod axis_words;
pub mod by_axis;
pub mod dwell;
pub mod fault;
pub mod pair;
pub mod position;
pub mod word;

pub use axis::AxisId;
pub use axis_words::AxisWords;
pub use by_axis::ByAxis;
pub use fault::{Fault, Question};
pub use pair::WordPair;
pub use position::{POSITION_MAX, PositionWords, Target, write_position};
pub use word::{Bit, Word};

#[cfg(test)]
mod tests;
