// What commands, parameters and presets do to the state of an axis.
ghost use Rattle.std.specs.Prelude.{◌≡◌};
ghost use Rattle.modes.specs.Commands.{command_code, stopped_mode, after_command, with_parameters, with_moveset, loaded};
ghost use Rattle.moves.specs.State.{lose_home};

use moves::{
    Control, Coordinates, Direction, Mode, Motion, Moveset, Parameters, Program, State, base_under,
};

#[derive(Clone, Copy, Debug, PartialEq, Eq)]
pub enum Command {
    // sets up the first move
    Begin,
    // sets up the next move
    Start,
    SlideStop,
    SearchHome,
    JogForward,
    JogReverse,
    Reset,
    // to so many hundredths of a move's feedrate
    Override(u8),
}

impl Command {
    // An override holds a value, so there are no discriminants to cast.
    pub fn code(self) -> u8
        ensures { result ≡ command_code self }
    {
        match self {
            Command::Begin => 1,
            Command::Start => 2,
            Command::SlideStop => 3,
            Command::SearchHome => 4,
            Command::JogForward => 5,
            Command::JogReverse => 6,
            Command::Reset => 7,
            Command::Override(_) => 8,
        }
    }
}

// What a slide stop makes of a mode.
fn stopped_mode(mode: Mode) -> Mode
    ensures { result ≡ stopped_mode mode }
{
    match mode {
        Mode::Unset | Mode::Down => mode,
        Mode::Rest | Mode::Dwelling(_) | Mode::Waiting => Mode::Rest,
        _ => Mode::Stopping,
    }
}

// Positions are the drive's places again, and the last endpoint is where it stands.
pub fn lose_home(control: &mut Control, place: i32)
    ensures { control.new.state ≡ lose_home place control.old.state }
{
    control.state.coordinates = Coordinates {
        last_endpoint: i64::from(place),
        ..Coordinates::default()
    };
    control.state.homed = false;
}

pub fn apply_command(control: &mut Control, command: Command, place: i32)
    ensures { control.new.state ≡ after_command command place control.old.state }
{
    // The commands are data that the host sends, so each is a case here.
    match command {
        Command::Begin => {
            control.state.note = None;
            control.set_up(place, 0);
        }
        Command::Start => control.set_up(place, control.state.program.current + 1),
        Command::SlideStop => control.state.motion.mode = stopped_mode(control.state.motion.mode),
        Command::SearchHome => {
            control.state.note = None;
            lose_home(control, place);
            control.state.motion.mode = Mode::Homing;
            control.state.motion.direction = Direction::Minus;
        }
        Command::JogForward => {
            control.state.motion.mode = Mode::Jogging;
            control.state.motion.direction = Direction::Plus;
        }
        Command::JogReverse => {
            control.state.motion.mode = Mode::Jogging;
            control.state.motion.direction = Direction::Minus;
        }
        Command::Reset => {
            control.state.note = None;
            control.state.motion.mode = Mode::Rest;
        }
        Command::Override(percent) => control.state.override_percent = percent,
    }
}

// Accepted parameters put the axis down, without home, moveset or note.
pub fn store_parameters(control: &mut Control, parameters: Parameters)
    ensures { control.new.state ≡ with_parameters parameters control.old.state }
{
    control.state = State {
        parameters,
        motion: Motion {
            mode: Mode::Down,
            speed: 0,
            direction: control.state.motion.direction,
        },
        held: control.state.held,
        ..State::new()
    };
}

pub fn store_moveset(control: &mut Control, moveset: Moveset)
    ensures { control.new.state ≡ with_moveset moveset control.old.state }
{
    control.state.program = Program {
        moveset: Some(moveset),
        current: 0,
    };
}

// The place where the axis stands gets the held preset as its position.
pub fn load_preset(control: &mut Control, place: i32)
    ensures { control.new.state ≡ loaded place control.old.state.held control.old.state }
{
    if let Some(preset) = control.state.held.take() {
        control.state.coordinates = Coordinates {
            base: base_under(place, preset),
            accumulator: 0,
            last_endpoint: i64::from(preset),
        };
    }
}
