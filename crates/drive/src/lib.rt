// A drive moves one axis in steps and keeps account of what the axis's encoder reports. The trait `Drive` is all that the
// layers above know of one; `Analog` is a drive, and `Reversed` mounts any drive the other way round.
// The rules: specs/Values.antt says what every call does to a drive, specs/Orders.antt what a drive can be told and that it was
// told just that, specs/Refusals.antt numbers the refusals, specs/Output.antt has the analog drive's output, specs/Analog.antt
// what orders make of an analog drive, and specs/Mirror.antt the reversed mount.

#![tactic(auto)]

ghost use Rattle.std.specs.Prelude.{◌≡◌};
ghost use Rattle.drive.specs.Orders.{Order, Step, Feel, Name, Wake, Sleep};
ghost use Rattle.drive.specs.Values.{Values, Lawful, step_answer, after_step, after_feel, name_answer, after_name, after_wake, after_sleep};

mod analog;
mod limits;
mod refusal;
mod reversed;
#[cfg(test)]
mod tests;

pub use analog::Analog;
pub use refusal::Refusal;
pub use reversed::Reversed;

pub trait Drive {
    // The four values that this drive stands for. What a call does to them, and what it answers, is said by these alone.
    ghost meaning: { Self → Values };

    // `obeys d o e`: the order o takes a drive of this kind from d to e. Each kind gives its own relation and the trait asks nothing
    // of it, so it says as much of what a drive keeps as that kind makes it say. Generic code knows nothing of it: only by making
    // that very call can it show that a drive went through an order.
    ghost obeys: { Self → Order → Self → Type 0 };

    // Moves by `counts`, either way. It is refused if the drive sleeps, else if it would leave the reach, and then changes
    // nothing.
    fn step(&mut self, counts: i32) -> Result<(), Refusal>
        ensures answer { result ≡ step_answer (meaning self.old) counts }
        ensures after { meaning self.new ≡ after_step (meaning self.old) counts }
        ensures obeyed { obeys self.old (Step counts) self.new };

    // Takes the counts that the encoder saw since the last report. A drive that is not ready falls asleep.
    fn feel(&mut self, counts: i32, ready: bool)
        ensures after { meaning self.new ≡ after_feel (meaning self.old) counts ready }
        ensures obeyed { obeys self.old (Feel counts ready) self.new };

    // Gives the spot where the drive stands the number `place`, without motion. Only a number beyond the reach is refused,
    // and then nothing changes.
    fn name(&mut self, place: i32) -> Result<(), Refusal>
        ensures answer { result ≡ name_answer (meaning self.old) place }
        ensures after { meaning self.new ≡ after_name (meaning self.old) place }
        ensures obeyed { obeys self.old (Name place) self.new };

    // Steps are taken from now on. The gap so far is forgotten.
    fn wake(&mut self)
        ensures after { meaning self.new ≡ after_wake (meaning self.old) }
        ensures obeyed { obeys self.old Wake self.new };

    fn sleep(&mut self)
        ensures after { meaning self.new ≡ after_sleep (meaning self.old) }
        ensures obeyed { obeys self.old Sleep self.new };

    fn place(&self) -> i32
        ensures { result ≡ (meaning self.now).place };

    fn gap(&self) -> i32
        ensures { result ≡ (meaning self.now).gap };

    fn awake(&self) -> bool
        ensures { result ≡ (meaning self.now).awake };

    fn reach(&self) -> i32
        ensures { result ≡ (meaning self.now).reach };

    // Place, reach and gap are in their ranges at all times.
    ghost lawful: { (d : Self) → Lawful (meaning d) };
}
