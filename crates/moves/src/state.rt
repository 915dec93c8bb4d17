// The state of an axis, apart from its drive.
ghost use Rattle.std.specs.Prelude.{◌≡◌, ◌<◌, OnSome};
ghost use Rattle.moves.specs.Numbers.{mode_number, note_number};
ghost use Rattle.moves.specs.Moves.{moves_max};
ghost use Rattle.moves.specs.State.{signed, new_state, stored_move};

use crate::moves::{Move, Moveset};
use crate::parameters::Parameters;

#[derive(Clone, Copy, Debug, PartialEq, Eq)]
pub enum Direction {
    Plus,
    Minus,
}

impl Direction {
    // So many counts in this direction.
    pub fn signed(self, speed: u16) -> i32
        ensures { result ≡ signed self speed }
    {
        match self {
            Direction::Plus => i32::from(speed),
            Direction::Minus => -i32::from(speed),
        }
    }
}

// A move under way.
#[derive(Clone, Copy, Debug, PartialEq, Eq)]
pub struct Leg {
    // where it ends, as a place of the drive
    pub endpoint: i32,
    // the counts that are left of it
    pub left: u32,
    // its length when it was set up
    pub length: u32,
}

#[derive(Clone, Copy, Debug, PartialEq, Eq)]
pub enum Mode {
    // no parameters were accepted yet
    Unset,
    Down,
    Rest,
    Moving(Leg),
    // at its endpoint, until the gap is within the band
    Settling(i32),
    // for so many ticks more
    Dwelling(u32),
    // for a start
    Waiting,
    Stopping,
    Jogging,
    Homing,
    Creeping,
}

impl Mode {
    // Three modes hold a value, so there are no discriminants to cast.
    pub fn number(self) -> u8
        ensures { result ≡ mode_number self }
    {
        match self {
            Mode::Unset => 0,
            Mode::Down => 1,
            Mode::Rest => 2,
            Mode::Moving(_) => 3,
            Mode::Settling(_) => 4,
            Mode::Dwelling(_) => 5,
            Mode::Waiting => 6,
            Mode::Stopping => 7,
            Mode::Jogging => 8,
            Mode::Homing => 9,
            Mode::Creeping => 10,
        }
    }
}

// Why an axis came to rest or went down; the status shows its number.
#[derive(Clone, Copy, Debug, PartialEq, Eq)]
pub enum Note {
    // the endpoint of a move is outside the limits
    OutsideLimits = 17,
    // the accumulator, or a limit under a preset, is beyond what a position can show
    OutOfRange = 18,
    // the search for home came to the end of the reach
    HomeNotFound = 19,
    StopInput = 20,
    DriveAsleep = 21,
    // the gap is larger than the following limit
    FollowingError = 22,
}

impl Note {
    pub fn number(self) -> u8
        ensures { result ≡ note_number self }
    {
        self as u8
    }
}

// How programmed positions lie on the places of the drive: a target is the place target + base + accumulator.
#[derive(Clone, Copy, Debug, Default, PartialEq, Eq)]
pub struct Coordinates {
    pub base: i64,
    pub accumulator: i64,
    pub last_endpoint: i64,
}

#[derive(Clone, Copy, Debug, PartialEq, Eq)]
pub struct Motion {
    pub mode: Mode,
    // the size of the latest step
    pub speed: u16,
    pub direction: Direction,
}

impl Motion {
    // The step that the drive gets: so many counts in the direction.
    pub fn step(self) -> i32
        ensures { result ≡ signed self.direction self.speed }
    {
        self.direction.signed(self.speed)
    }
}

#[derive(Clone, Copy, Debug, Default, PartialEq, Eq)]
pub struct Program {
    pub moveset: Option<Moveset>,
    // the index of the move that was set up last
    pub current: u8,
}

impl Program {
    // The move of an index of the stored moveset, counted from 0.
    pub fn stored(&self, index: u8) -> Option<Move>
        ensures value { result ≡ stored_move self.now index }
        ensures within { OnSome result (index < moves_max) }
    {
        self.moveset.as_ref()?.get(usize::from(index))
    }
}

#[derive(Clone, Copy, Debug, PartialEq, Eq)]
pub struct State {
    // all 0 while the mode is Unset; every rule that reads them would have to take an Option apart
    pub parameters: Parameters,
    pub motion: Motion,
    pub coordinates: Coordinates,
    pub program: Program,
    pub note: Option<Note>,
    // in hundredths of a move's feedrate
    pub override_percent: u8,
    pub homed: bool,
    // the preset of the held load that names this axis
    pub held: Option<i32>,
}

impl State {
    // An axis before any call.
    pub fn new() -> State
        ensures { result ≡ new_state }
    {
        State {
            parameters: Parameters::default(),
            motion: Motion {
                mode: Mode::Unset,
                speed: 0,
                direction: Direction::Plus,
            },
            coordinates: Coordinates::default(),
            program: Program::default(),
            note: None,
            override_percent: 100,
            homed: false,
            held: None,
        }
    }
}
