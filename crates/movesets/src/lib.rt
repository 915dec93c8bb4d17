// Movesets: a reader that turns lent words of the data table into the moves of an axis.
//
// specs/Control.antt says which control words are right, specs/Actions.antt which questions are put to each kind of move and
// what it says, and specs/Movesets.antt puts them together, move by move. The reader is proved to answer that.

#![tactic(auto)]

mod actions;
mod move_words;
pub mod moveset;

pub use moveset::read_moveset;
