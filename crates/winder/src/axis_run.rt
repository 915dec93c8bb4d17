// The axis wound from its parameters to rest, tick by tick.
ghost use Rattle.std.specs.Prelude.{IfOk};
ghost use Rattle.winder.specs.Endings.{Ends};

use crate::axis_report::{print_axis_tick, print_order};
use crate::winding::Winding;
use moves::Note;
use std::io;

// More ticks than the moveset takes.
pub const TICK_LIMIT: u32 = 200;

// The axis when it was over.
#[derive(Clone, Copy)]
pub struct Ending {
    pub ticks: u32,
    pub last_endpoint: i64,
    pub place: i32,
    pub note: Option<Note>,
}

// Winds and prints each tick. None where the limit was reached first.
pub fn run_axis(rt: &impl Print) -> io::Result<Option<Ending>>
    ensures { IfOk result Ends }
{
    let mut winding = Winding::new();
    for tick in 1..=TICK_LIMIT {
        let order = winding.give_order();
        print_order(rt, order)?;
        let step = winding.tick(tick);
        let reading = winding.reading();
        print_axis_tick(rt, tick, step, &reading)?;
        if winding.is_over() {
            return Ok(Some(Ending {
                ticks: tick,
                last_endpoint: reading.last_endpoint,
                place: reading.drive.place,
                note: reading.note,
            }));
        }
    }
    Ok(None)
}
