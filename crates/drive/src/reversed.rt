// The reversed mount: any drive, another mount too, mounted the other way round.
ghost use Rattle.std.specs.Prelude.{◌≡◌, neg_ℤ};
ghost use Rattle.std.specs.Int.{saturate_to_bits};
ghost use Rattle.drive.specs.Mirror.{Opposite, mirror, ReversedObeys, reversed_values};
ghost use Rattle.std.proofs.Common.{rules};

use crate::{Drive, Refusal};

#[derive(Clone, Copy, Drop)]
pub struct Reversed<D> {
    drive: D,
}

impl<D: Drive> Reversed<D> {
    pub fn new(drive: D) -> Reversed<D>
        ensures below { result.drive ≡ drive }
        ensures mirrored { reversed_values D.meaning result ≡ mirror (D.meaning drive) }
    {
        Reversed { drive }
    }

    pub fn below(&self) -> &D
        ensures { result.now ≡ self.now.drive }
    {
        &self.drive
    }

    pub fn into_inner(self) -> D
        ensures { result ≡ self.drive }
    {
        let Reversed { drive } = self;
        drive
    }

    // What the drive below is told in place of `counts`: the negative. That of the least `i32` does not fit, but one count
    // less is still beyond every reach and takes every gap to its ceiling, so no drive can tell the difference.
    fn opposite(&self, counts: i32) -> i32
        ensures value { result ≡ saturate_to_bits 31 (neg_ℤ counts) }
        ensures mirrors { Opposite (D.meaning self.now.drive) counts result }
    {
        0i32.saturating_sub(counts)
    }
}

impl<D: Drive> Drive for Reversed<D> {
    ghost meaning = { reversed_values D.Drive.meaning };

    ghost obeys = { ReversedObeys D.Drive.obeys };

    ghost lawful = { Prim.search rules };

    fn step(&mut self, counts: i32) -> Result<(), Refusal> {
        let opposite = self.opposite(counts);
        self.drive.step(opposite)
    }

    fn feel(&mut self, counts: i32, ready: bool) {
        let opposite = self.opposite(counts);
        self.drive.feel(opposite, ready);
    }

    fn name(&mut self, place: i32) -> Result<(), Refusal> {
        let opposite = self.opposite(place);
        self.drive.name(opposite)
    }

    fn wake(&mut self) {
        self.drive.wake();
    }

    fn sleep(&mut self) {
        self.drive.sleep();
    }

    fn place(&self) -> i32 {
        -self.drive.place()
    }

    fn gap(&self) -> i32 {
        -self.drive.gap()
    }

    fn awake(&self) -> bool {
        self.drive.awake()
    }

    fn reach(&self) -> i32 {
        self.drive.reach()
    }
}
