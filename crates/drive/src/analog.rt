// The analog drive: it has the largest reach, and an output that follows its gap and its latest step.
ghost use Rattle.std.specs.Prelude.{pos, neg_ℤ};
ghost use Rattle.drive.specs.Output.{gain_ceiling};
ghost use Rattle.drive.specs.Values.{Within, gap_ceiling, reach_ceiling};

mod effects;
mod output;
mod state;

#[derive(Clone, Copy)]
pub struct Analog {
    place: i32,
    gap: i32,
    awake: bool,
    latest: i32,
    k1: i32,
    k2: i32,
    ghost place_within: { Within (neg_ℤ reach_ceiling) reach_ceiling place },
    ghost gap_within: { Within (neg_ℤ gap_ceiling) gap_ceiling gap },
    ghost k1_within: { Within (pos 0) gain_ceiling k1 },
    ghost k2_within: { Within (pos 0) gain_ceiling k2 },
}
