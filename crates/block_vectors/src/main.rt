// Runs the tabulated blocks of table.rt and prints a line for each: the call, the words, and the records or moves that were read, or
// the refusal.
//
// The expected lines in the crate's file `stdout` are not made by this program: reckoning/blocks.py prints them, from the rules as
// docs/blocks.md and docs/refusals.md have them, with words as texts. It also writes the cases into table.rt.

#![tactic(auto)]

mod case;
mod moveset_lines;
mod records;
mod table;

use std::io;
use table::TABLES;

fn main(rt: HostRuntime) -> io::Result<()> {
    for cases in TABLES {
        for case in cases {
            println!(rt; "{case}")?;
        }
    }
    Ok(())
}
