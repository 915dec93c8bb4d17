// Movesets: up to 21 moves, kept in fixed memory.
ghost use Rattle.std.specs.Prelude.{◌≡◌, min, take};
ghost use Rattle.moves.specs.Moves.{move_at, moves_max};

use words::Target;

pub const MOVES_MAX: usize = 21;

// A move or a move with offset.
#[derive(Clone, Copy, Debug, PartialEq, Eq)]
pub struct Travel {
    pub target: Target,
    pub with_offset: bool,
    // the feedrate of this move alone; without one the parameters' holds
    pub feedrate: Option<u16>,
}

#[derive(Clone, Copy, Debug, PartialEq, Eq)]
pub enum Action {
    Travel(Travel),
    // calls the place where the axis stands by this position
    Preset(i32),
    // waits for so many milliseconds
    Dwell(u32),
}

#[derive(Clone, Copy, Debug, PartialEq, Eq)]
pub struct Move {
    pub action: Action,
    // the axis waits for a start before the next move
    pub halt: bool,
    // the next move may begin before this one has come to rest
    pub continuous: bool,
}

#[derive(Clone, Copy, Debug, PartialEq, Eq)]
pub struct Moveset {
    // An array and a count, since a state is Copy with the moveset in it, and an ArrayVec is not.
    pub moves: [Move; MOVES_MAX],
    // how many of them there are
    pub count: u8,
}

impl Moveset {
    // The moves that there are.
    pub fn moves(&self) -> &[Move]
        ensures { result.now ≡ take (min self.now.count moves_max) self.now.moves }
    {
        &self.moves[..usize::from(self.count).min(MOVES_MAX)]
    }

    // The move of that index, counted from 0, or None past the last.
    pub fn get(&self, index: usize) -> Option<Move>
        ensures { result ≡ move_at self.now index }
    {
        self.moves().get(index).copied()
    }
}
