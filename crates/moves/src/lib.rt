// The parameters, the moves and the state of one axis, and what becomes of a move: its set-up, its completion, its partner.
//
// specs/Moves.antt and specs/State.antt have the parts; the ranges that every state keeps are the ghost fields of `Control` in
// src/control.rt. specs/SetUp.antt, specs/Completing.antt and specs/Partner.antt state the rules; specs/Numbers.antt gives modes
// and notes their numbers.

#![tactic(auto)]

mod completing;
pub mod control;
pub mod moves;
pub mod parameters;
pub mod partner;
pub mod set_up;
mod shown;
pub mod state;

pub use control::Control;
pub use moves::{Action, MOVES_MAX, Move, Moveset, Travel};
pub use parameters::Parameters;
pub use partner::{Partner, partner_length};
pub use set_up::Destination;
pub use shown::base_under;
pub use state::{Coordinates, Direction, Leg, Mode, Motion, Note, Program, State};
