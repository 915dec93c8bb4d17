// The moves of a moveset, as its line shows them.
use moves::{Action, Move, Moveset, Travel};
use std::fmt;
use words::Target;

#[derive(Clone, Copy)]
pub struct MoveList(pub Moveset);

impl fmt::Display for MoveList {
    fn fmt<W: fmt::Write>(&self, f: &mut fmt::Formatter<W>) -> fmt::Result {
        for (i, step) in self.0.moves().iter().enumerate() {
            if i > 0 {
                write!(f, "; ")?;
            }
            write!(f, "{}", MoveText(*step))?;
        }
        Ok(())
    }
}

#[derive(Clone, Copy)]
struct MoveText(Move);

impl fmt::Display for MoveText {
    fn fmt<W: fmt::Write>(&self, f: &mut fmt::Formatter<W>) -> fmt::Result {
        match self.0.action {
            Action::Travel(travel) => write_travel(f, travel)?,
            Action::Preset(counts) => write!(f, "preset {counts}")?,
            Action::Dwell(time) => write!(f, "dwell {time}")?,
        }
        if self.0.halt {
            write!(f, " halt")?;
        }
        if self.0.continuous {
            write!(f, " continuous")?;
        }
        Ok(())
    }
}

fn write_travel<W: fmt::Write>(f: &mut fmt::Formatter<W>, travel: Travel) -> fmt::Result {
    if travel.with_offset {
        write!(f, "offset ")?;
    }
    match travel.target {
        Target::Absolute(counts) => write!(f, "move to {counts}")?,
        Target::Incremental(counts) => write!(f, "move by {counts}")?,
    }
    if let Some(feedrate) = travel.feedrate {
        write!(f, " at {feedrate}")?;
    }
    Ok(())
}
