// One axis of the card over any drive: the calls of the layer above.
//
// specs/Reference.antt states the reference axis: the rules over a drive that is only its four values. Every call here does
// to the state, and to what the drive means, what the reference axis does. specs/Responses.antt lists the orders of
// each call, and specs/Calls.antt says that they take the drive from before to after. The rules of the single modes are stated in the crate `modes`,
// those of the moves in the crate `moves`.

#![tactic(auto)]

mod calls;
mod examples;
pub mod over_drive;

pub use examples::worked_cases;
pub use over_drive::Axis;
