// Runs tabulated cases of the crates `words`, `motion` and `drive`, a file to a subject, and prints one line for each.
//
// The expected lines in the crate's file `stdout` are not made by this program. reckoning/vectors.py prints them from a list of
// the cases of its own and from the rules as docs/ has them, by other means: words as text, speeds by trying every one,
// outputs by fractions. So a case that is missing on one side, or that comes out otherwise, shows as a difference.

#![tactic(auto)]

mod calls;
mod cases;
mod drives;
mod dwells;
mod faults;
mod numbers;
mod outputs;
mod planning;
mod positions;
mod targets;

use std::io;

fn main(rt: HostRuntime) -> io::Result<()> {
    faults::print_questions(&rt)?;
    faults::print_axes(&rt)?;
    numbers::print_numbers(&rt)?;
    positions::print_positions(&rt)?;
    positions::print_written(&rt)?;
    targets::print_targets(&rt)?;
    dwells::print_dwells(&rt)?;
    planning::print_distances(&rt)?;
    planning::print_plans(&rt)?;
    planning::print_slowed(&rt)?;
    drives::print_drives(&rt)?;
    outputs::print_outputs(&rt)?;
    outputs::print_latest_steps(&rt)
}
