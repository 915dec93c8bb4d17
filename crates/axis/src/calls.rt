// The calls on an axis over any drive. Each is what the reference axis does, on the state and on the drive's four values, and tells
// the drive what the response to it lists.
ghost use Rattle.std.specs.Prelude.{◌≡◌, [], ◌∷◌};
ghost use Rattle.drive.specs.Orders.{Told};
ghost use Rattle.axis.specs.Calls.{Follows, reference};
ghost use Rattle.axis.specs.Responses.{Tick, Commanded, ParametersSet, MovesetSet, PresetHeld, PresetLoaded, response, taken_down_response, moved_response, naming, step_of};
ghost use Rattle.modes.specs.Commands.{with_moveset};
ghost use Rattle.axis.specs.Reference.{is_up, alarm, taken_down, seen, after_naming, after_motion, moved, tick, commanded, accepted, load};
ghost use Rattle.moves.specs.State.{with_held, new_state};

use crate::over_drive::Axis;
use drive::Drive;
use modes::commands::{apply_command, load_preset, lose_home, store_moveset, store_parameters};
use modes::standing::gap_within;
use modes::tick::advance;
use modes::{Command, Input, Seen};
use moves::{Control, Mode, Motion, Moveset, Note, Parameters, State};

impl<D: Drive> Axis<D> {
    // An axis without parameters. The drive may be in any state, and is left in it.
    pub fn new(drive: D) -> Self
        ensures state { result.control.state ≡ new_state }
        ensures drive { result.drive ≡ drive }
    {
        Axis {
            control: Control::new(),
            drive,
        }
    }

    pub fn state(&self) -> &State
        ensures { result.now ≡ self.now.control.state }
    {
        &self.control.state
    }

    pub fn drive(&self) -> &D
        ensures { result.now ≡ self.now.drive }
    {
        &self.drive
    }

    // One tick. The drive feels first; then the first alarm takes the axis down, or it moves and gives one step.
    pub fn tick(&mut self, input: Input)
        ensures after { reference D.meaning self.new ≡ tick input (reference D.meaning self.old) }
        ensures follows { Follows D.meaning D.obeys self.old self.new (response (Tick input) (reference D.meaning self.old)) }
    {
        self.drive.feel(i32::from(input.counts), input.ready);
        if is_up(self.control.state.motion.mode) {
            match self.alarm(&input) {
                Some(note) => self.take_down(note),
                None => self.advance(&input),
            }
        }
    }

    // A command, on an axis that is allowed it.
    pub fn command(&mut self, command: Command)
        ensures after { reference D.meaning self.new ≡ commanded command (reference D.meaning self.old) }
        ensures follows { Follows D.meaning D.obeys self.old self.new (response (Commanded command) (reference D.meaning self.old)) }
    {
        apply_command(&mut self.control, command, self.drive.place());
        if command == Command::Reset {
            self.drive.wake();
        }
    }

    // Accepted parameters.
    pub fn set_parameters(&mut self, parameters: Parameters)
        ensures after { reference D.meaning self.new ≡ accepted parameters (reference D.meaning self.old) }
        ensures follows { Follows D.meaning D.obeys self.old self.new (response (ParametersSet parameters) (reference D.meaning self.old)) }
    {
        store_parameters(&mut self.control, parameters);
        self.drive.sleep();
        let _ = self.drive.name(0);
    }

    // An accepted moveset.
    pub fn set_moveset(&mut self, moveset: Moveset)
        ensures state { self.new.control.state ≡ with_moveset moveset self.old.control.state }
        ensures drive { self.new.drive ≡ self.old.drive }
        ensures follows { Follows D.meaning D.obeys self.old self.new (response (MovesetSet moveset) (reference D.meaning self.old)) }
    {
        store_moveset(&mut self.control, moveset);
    }

    // The preset of a held load that names this axis; None where the hold ends.
    pub fn hold(&mut self, preset: Option<i32>)
        ensures state { self.new.control.state ≡ with_held preset self.old.control.state }
        ensures drive { self.new.drive ≡ self.old.drive }
        ensures follows { Follows D.meaning D.obeys self.old self.new (response (PresetHeld preset) (reference D.meaning self.old)) }
    {
        self.control.state.held = preset;
    }

    // The held preset is loaded, and is held no more.
    pub fn load(&mut self)
        ensures after { reference D.meaning self.new ≡ load (reference D.meaning self.old) }
        ensures follows { Follows D.meaning D.obeys self.old self.new (response PresetLoaded (reference D.meaning self.old)) }
    {
        load_preset(&mut self.control, self.drive.place());
    }

    // Why this tick takes the axis down, if it does.
    fn alarm(&self, input: &Input) -> Option<Note>
        ensures { result ≡ alarm input.now (reference D.meaning self.now) }
    {
        if input.stop {
            return Some(Note::StopInput);
        }
        if !self.drive.awake() {
            return Some(Note::DriveAsleep);
        }
        let limit = self.control.state.parameters.following_limit;
        (!gap_within(self.drive.gap(), limit)).then_some(Note::FollowingError)
    }

    fn take_down(&mut self, why: Note)
        ensures after { reference D.meaning self.new ≡ taken_down why (reference D.meaning self.old) }
        ensures follows { Follows D.meaning D.obeys self.old self.new (taken_down_response why (reference D.meaning self.old)) }
    {
        self.control.state.motion.mode = Mode::Down;
        self.control.state.motion.speed = 0;
        lose_home(&mut self.control, self.drive.place());
        self.control.state.note = Some(why);
        self.drive.sleep();
    }

    // The axis stays up: it moves by its mode and gives one step, of 0 too.
    fn advance(&mut self, input: &Input)
        ensures after { reference D.meaning self.new ≡ moved input.now (reference D.meaning self.old) }
        ensures follows { Follows D.meaning D.obeys self.old self.new (moved_response input.now (reference D.meaning self.old)) }
    {
        let seen = look(&self.drive);
        let home = advance(&mut self.control, input, &seen);
        name_home(&mut self.drive, home);
        give_step(&mut self.drive, self.control.state.motion);
    }
}

// What a drive shows.
fn look<D: Drive>(drive: &D) -> Seen
    ensures { result ≡ seen (D.meaning drive.now) }
{
    Seen {
        place: drive.place(),
        gap: drive.gap(),
        reach: drive.reach(),
    }
}

// Names the place home, where home was found. A home beyond the reach leaves the drive as it was.
fn name_home<D: Drive>(drive: &mut D, home: Option<i32>)
    ensures after { D.meaning drive.new ≡ after_naming home (D.meaning drive.old) }
    ensures told { Told D.obeys drive.old (naming home []) drive.new }
{
    if let Some(place) = home {
        let _ = drive.name(place);
    }
}

// The one step of a tick. A drive that refuses it is as it was.
fn give_step<D: Drive>(drive: &mut D, motion: Motion)
    ensures after { D.meaning drive.new ≡ after_motion motion (D.meaning drive.old) }
    ensures told { Told D.obeys drive.old (step_of motion ∷ []) drive.new }
{
    let _ = drive.step(motion.step());
}

// Whether an axis in that mode has parameters and is not down.
fn is_up(mode: Mode) -> bool
    ensures { result ≡ is_up mode }
{
    !matches!(mode, Mode::Unset | Mode::Down)
}
