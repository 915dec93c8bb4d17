// Blocks with a directory: readers that turn lent words of the data table into typed records, by axis.
//
// specs/Questions.antt says what an answer is: the value, or the first question that got a no. specs/Directory.antt has the
// questions of a block's outer form, specs/Records.antt how questions are put to its records, specs/Blocks.antt all questions of
// a block of any kind, and Parameters.antt, Commands.antt and Presets.antt the questions and the values of each kind. The reader
// of block.rt is proved once, for every kind, to answer that; turns.rt goes from axis to axis.

#![tactic(auto)]

mod block;
mod bounds;
pub mod commands;
mod directory;
mod fields;
pub mod kinds;
pub mod parameters;
pub mod presets;
pub mod records;
mod turns;

pub use bounds::RATE_MAX;
pub use commands::read_commands;
pub use kinds::Kind;
pub use parameters::{Reaches, read_parameters};
pub use presets::read_presets;
pub use records::{Record, Records};
