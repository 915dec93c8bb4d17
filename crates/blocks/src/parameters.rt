// Parameter blocks: what they set for each axis that they name.
ghost use Rattle.std.specs.Prelude.{◌≡◌};
ghost use Rattle.blocks.specs.declared.kinds.Kind.TheVariants as kind;
ghost use Rattle.blocks.specs.Parameters.{parameters_written, parameter_digits, parameter_ranges, parameter_questions, home_between, within_reach, limits_within, rates_right, relations_hold, assembled, bounded_rates, reach_of, parameters};
ghost use Rattle.blocks.specs.Questions.{answer};

use crate::block::{Block, read_block};
use crate::bounds::{Bounded, RATE_MAX, check_bounds};
use crate::fields::{RecordWords, read_fields};
use crate::kinds::Kind;
use crate::records::Records;
use moves::Parameters;
use words::{AxisId, ByAxis, Fault, Question};

// The reach of each axis's drive, within which its limits have to lie.
pub type Reaches = ByAxis<i32>;

#[derive(Drop)]
struct ParameterBlock {
    reaches: Reaches,
}

impl Block for ParameterBlock {
    type Written = Parameters;

    type Value = Parameters;

    const KIND: Kind = Kind::Parameters;

    ghost KIND = { kind.Parameters };

    ghost digits = { parameter_digits };

    ghost written = { parameters_written };

    ghost ranges = { λ block axis. parameter_ranges (reach_of block.reaches axis) axis };

    ghost value = { λ parameters. parameters };

    fn read(words: RecordWords) -> Result<Parameters, Fault> {
        let positions = read_fields(words, 1)?;
        let numbers = read_fields(words, 9)?;
        Ok(assemble(positions, numbers))
    }

    fn check(
        &self,
        axis: AxisId,
        start: usize,
        parameters: Parameters,
    ) -> Result<Parameters, Fault> {
        if !relations_hold(parameters, *self.reaches.get(axis)) {
            return Err(Question::Range.refused(axis, start));
        }
        check_bounds(axis, start, 9, &bounded_rates(parameters))?;
        Ok(parameters)
    }
}

// What a block sets for its axes, or its first no.
pub fn read_parameters(words: &[u16], reaches: Reaches) -> Result<Records<Parameters>, Fault>
    ensures { result ≡ answer (parameter_questions reaches words.now) (parameters words.now) }
{
    read_block(&ParameterBlock { reaches }, words)
}

// The values of a record, in the order of its words.
fn assemble(positions: [i32; 4], numbers: [u16; 8]) -> Parameters
    ensures { result ≡ assembled positions numbers }
{
    let [low, high, home, offset] = positions;
    let [
        feedrate,
        acceleration,
        deceleration,
        jog_rate,
        home_rate,
        creep_rate,
        band,
        following_limit,
    ] = numbers;
    Parameters {
        low,
        high,
        home,
        offset,
        feedrate,
        acceleration,
        deceleration,
        jog_rate,
        home_rate,
        creep_rate,
        band,
        following_limit,
    }
}

// Whether home lies between the limits.
fn home_between(parameters: Parameters) -> bool
    ensures { result ≡ home_between parameters }
{
    (parameters.low..=parameters.high).contains(&parameters.home)
}

// Whether both limits are within the reach.
fn limits_within(parameters: Parameters, reach: i32) -> bool
    ensures { result ≡ limits_within reach parameters }
{
    let low = within_reach(parameters.low, reach);
    let high = within_reach(parameters.high, reach);
    low && high
}

// Whether a place is within plus or minus the reach, whose negative need not fit 32 bits.
fn within_reach(place: i32, reach: i32) -> bool
    ensures { result ≡ within_reach reach place }
{
    // Tried: contains over the range; the check did not close it.
    -i64::from(reach) <= i64::from(place) && place <= reach
}

// Whether the rates that a search for home uses agree, and the band with the following limit.
fn rates_right(parameters: Parameters) -> bool
    ensures { result ≡ rates_right parameters }
{
    parameters.creep_rate <= parameters.home_rate
        && parameters.creep_rate <= parameters.deceleration
        && parameters.band <= parameters.following_limit
}

// Whether the values of a record agree with each other and with the reach.
fn relations_hold(parameters: Parameters, reach: i32) -> bool
    ensures { result ≡ relations_hold reach parameters }
{
    let limits = home_between(parameters) && limits_within(parameters, reach);
    limits && rates_right(parameters)
}

// The values from word 9 on that have a range.
fn bounded_rates(parameters: Parameters) -> [Bounded; 6]
    ensures { result ≡ bounded_rates parameters }
{
    [
        Bounded {
            value: parameters.feedrate,
            most: RATE_MAX,
        },
        Bounded {
            value: parameters.acceleration,
            most: 9_999,
        },
        Bounded {
            value: parameters.deceleration,
            most: 9_999,
        },
        Bounded {
            value: parameters.jog_rate,
            most: RATE_MAX,
        },
        Bounded {
            value: parameters.home_rate,
            most: RATE_MAX,
        },
        Bounded {
            value: parameters.creep_rate,
            most: RATE_MAX,
        },
    ]
}
