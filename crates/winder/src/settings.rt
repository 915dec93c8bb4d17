// The axis that the program winds with: the gains of its drive, its parameters and its moveset. The numbers are small, so that
// every tick can be followed by hand.
ghost use Rattle.std.specs.Prelude.{◌≡◌, false, None};
ghost use Rattle.winder.specs.Settings.{winding_parameters, winding_moveset, plain, travel};

use moves::{Action, MOVES_MAX, Move, Moveset, Parameters, Travel};
use words::Target;

// The gains of the drive, in thousandths. With the second one above 0 the output shows that an axis at rest is given steps of 0:
// it falls back in the tick after the last step, because the latest step is then 0.
pub const AXIS_GAP_GAIN: i32 = 1_000;

pub const AXIS_STEP_GAIN: i32 = 2_000;

pub fn parameters() -> Parameters
    ensures { result ≡ winding_parameters }
{
    Parameters {
        low: -100,
        high: 200,
        home: 20,
        offset: 3,
        feedrate: 4,
        acceleration: 2,
        deceleration: 2,
        jog_rate: 4,
        home_rate: 4,
        creep_rate: 1,
        band: 1,
        following_limit: 20,
    }
}

// A move to a target at the feedrate of the parameters.
fn travel(target: Target) -> Move
    ensures { result ≡ plain (travel target false None) }
{
    plain(Action::Travel(Travel {
        target,
        with_offset: false,
        feedrate: None,
    }))
}

// What is neither continuous nor has a halt.
fn plain(action: Action) -> Move
    ensures { result ≡ plain action }
{
    Move {
        action,
        halt: false,
        continuous: false,
    }
}

// Two moves that blend, a move with offset, a dwell, a move with halt, a preset, and a move in the new positions.
pub fn moveset() -> Moveset
    ensures { result ≡ winding_moveset }
{
    let layers = [
        // Continuous, so that the next move is its partner: the step that leads past 51 is not cut there.
        Move {
            continuous: true,
            ..travel(Target::Absolute(51))
        },
        travel(Target::Absolute(73)),
        plain(Action::Travel(Travel {
            target: Target::Incremental(16),
            with_offset: true,
            feedrate: None,
        })),
        plain(Action::Dwell(20)),
        Move {
            action: Action::Travel(Travel {
                target: Target::Absolute(70),
                with_offset: false,
                feedrate: Some(3),
            }),
            halt: true,
            continuous: false,
        },
        plain(Action::Preset(0)),
        travel(Target::Absolute(30)),
    ];
    // The last one also stands behind the others.
    let mut moves = [travel(Target::Absolute(30)); MOVES_MAX];
    moves[..layers.len()].copy_from_slice(&layers);
    Moveset {
        moves,
        count: layers.len() as u8,
    }
}
