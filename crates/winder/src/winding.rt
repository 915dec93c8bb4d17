// One axis with the encoder on its motor, which reports each step one tick late.
ghost use Rattle.std.specs.Prelude.{◌≡◌};
ghost use Rattle.winder.specs.Orders.{next_order, is_over, step_given};
ghost use Rattle.winder.specs.Winding.{station, new_station, ordered, obeyed, ticked, shown_of, reading_of};

use crate::orders::{Order, input_at, is_over, next_order, reported, step_given};
use crate::reading::Reading;
use crate::settings::{AXIS_GAP_GAIN, AXIS_STEP_GAIN, moveset, parameters};
use axis::Axis;
use drive::{Analog, Drive};
use modes::Command;
use moves::{Mode, Note};

#[derive(Drop)]
pub struct Winding {
    pub axis: Axis<Analog>,
    // the counts that the encoder reports next
    pub unreported: i16,
}

// What is read off the axis after a tick.
#[derive(Clone, Copy)]
pub struct AxisReading {
    pub mode: Mode,
    pub drive: Reading,
    // the position as the programmed moves count it: the place less the base
    pub shown: i64,
    pub last_endpoint: i64,
    pub note: Option<Note>,
}

impl Winding {
    // An axis without parameters, over a drive asleep at 0.
    pub fn new() -> Winding
        ensures { station result ≡ new_station }
    {
        Winding {
            axis: Axis::new(Analog::new(AXIS_GAP_GAIN, AXIS_STEP_GAIN)),
            unreported: 0,
        }
    }

    // Gives the axis the order that is due, if one is, and answers it.
    pub fn give_order(&mut self) -> Option<Order>
        ensures answer { result ≡ next_order (station self.old).axis.state }
        ensures after { station self.new ≡ ordered (station self.old) }
    {
        let order = next_order(self.axis.state());
        if let Some(due) = order {
            self.obey(due);
        }
        order
    }

    fn obey(&mut self, order: Order)
        ensures { station self.new ≡ obeyed order (station self.old) }
    {
        match order {
            Order::SetParameters => self.axis.set_parameters(parameters()),
            Order::Command(command) => self.axis.command(command),
            Order::Wind => {
                self.axis.set_moveset(moveset());
                self.axis.command(Command::Begin);
            }
        }
    }

    // One tick. The answer is the step that the drive was given, if it was given one.
    pub fn tick(&mut self, tick: u32) -> Option<i32>
        ensures answer { result ≡ step_given (station self.new).axis.state.motion }
        ensures after { station self.new ≡ ticked tick (station self.old) }
    {
        self.axis.tick(input_at(tick, self.unreported));
        let step = step_given(self.axis.state().motion);
        self.unreported = reported(step);
        step
    }

    pub fn is_over(&self) -> bool
        ensures { result ≡ is_over (station self.now).axis.state }
    {
        is_over(self.axis.state())
    }

    fn shown(&self) -> i64
        ensures { result ≡ shown_of self.now }
    {
        i64::from(self.axis.drive().place()) - self.axis.state().coordinates.base
    }

    pub fn reading(&self) -> AxisReading
        ensures { result ≡ reading_of self.now }
    {
        let state = self.axis.state();
        AxisReading {
            mode: state.motion.mode,
            drive: Reading::of(self.axis.drive()),
            shown: self.shown(),
            last_endpoint: state.coordinates.last_endpoint,
            note: state.note,
        }
    }
}
