// What a tick and a command do to the state of one axis, mode by mode; what they do to its drive is the layer above.
//
// specs/Tick.antt states the tick by the mode and the inputs; Standing.antt, Jogging.antt, Homing.antt and Travel.antt have
// what becomes of the axis in each mode, Rates.antt the rates in force, and Commands.antt the commands, accepted parameters
// and movesets, and presets that are loaded. The code has a file for each.

#![tactic(auto)]

pub mod commands;
mod homing;
pub mod input;
mod jogging;
mod rates;
pub mod standing;
pub mod tick;
mod travel;

pub use commands::Command;
pub use input::{Input, Seen};
