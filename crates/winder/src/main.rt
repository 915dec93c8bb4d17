// The program of the bench: it takes the two words of a position, as hexadecimal arguments, and carries a move of that
// length out on an analog drive and on a second one behind a reversed mount. For each tick it prints the step, and the place,
// the gap and the output of both drives. After that it winds with one axis, from its parameters through the search for home and a
// moveset to rest, and prints each order and each tick.
//
// The crate's file `stdout` holds what it has to print for the words in `args`. It is not the program's own output:
// reckoning/winder.py prints it from the rules as docs/ has them, by other means than the code's, and the table of the analog
// drive in docs/drives.md has the same five ticks of the move worked out by hand. Of the axis these were worked out by hand too:
//
// - Ticks 3 to 10, the search: sizes 2, 4, 4 at the home rate of 4; the switch of tick 6 lowers the rate to 1, so 2, 1, 1, 1. The
//   marker of tick 5 is not looked at, that of tick 10 finds home at speed 1: step 0, and the place is named 20.
// - Tick 19, the blend: 51 - 50 = 1 count is left, the partner has 73 - 51 = 22, so the room is 23. Speed 4 brakes within 6, so the
//   step is 4, past the endpoint, and 23 - 4 = 19 are left of the second move. After four steps of 4 there are 3 left; 3 would brake
//   within 4, so ticks 24 and 25 step 2 and 1.
// - Ticks 27 to 32, the offset: from 73 to 73 + 16 + 3 = 92. Steps 2, 4, 4, 4, 3, 2 are these 19 counts.
// - Ticks 34 to 42, the dwell: 5 * 20 / 12, rounded up, is 9.
// - Tick 51, the preset: place 73 is called 0, so the last move ends at place 103, which is shown as 30.

#![tactic(auto)]

mod arguments;
mod axis_report;
mod axis_run;
mod bench;
mod orders;
mod reading;
mod report;
mod run;
mod servo;
mod settings;
mod travel;
mod winding;

use arguments::hex_word;
use report::{print_usage, wind};
use std::{env, io};
use words::PositionWords;

fn main(rt: HostRuntime) -> io::Result<()> {
    let mut arguments = env::args(&rt)?;
    let _program = arguments.next();
    let (Some(first), Some(second), None) = (arguments.next(), arguments.next(), arguments.next())
    else {
        return print_usage(&rt);
    };
    let (Some(first), Some(second)) = (hex_word(first.as_str()), hex_word(second.as_str())) else {
        return print_usage(&rt);
    };
    wind(&rt, PositionWords { first, second })
}
