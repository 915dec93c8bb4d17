// The two words of a position, as they come from the command line.
ghost use Rattle.std.specs.Prelude.{◌≡◌, IfOk};
ghost use Rattle.words.specs.declared.axis.AxisId.TheVariants.{One};
ghost use Rattle.words.specs.Readings.{position_reading};
ghost use Rattle.winder.specs.Arguments.{Spelled};
ghost use Rattle.winder.specs.Runs.{Reachable};

use words::{AxisId, Fault, PositionWords, Word, WordPair};

// A word of hexadecimal digits alone.
pub fn hex_word(text: &str) -> Option<u16>
    ensures { Spelled text.now result }
{
    // A plus sign is no digit, though the library takes it.
    if text.starts_with('+') {
        return None;
    }
    u16::from_str_radix(text, 16).ok()
}

// The position that two words spell, read as words 0 and 1 of a block for axis 1.
pub fn position(words: PositionWords) -> Result<i32, Fault>
    ensures answer { result ≡ position_reading (record { bits = words.first; axis = One; index = 0 }) (record { bits = words.second; axis = One; index = 1 }) }
    ensures within { IfOk result Reachable }
{
    let word = |bits, index| Word {
        bits,
        axis: AxisId::One,
        index,
    };
    let pair = WordPair {
        first: word(words.first, 0),
        second: word(words.second, 1),
    };
    pair.read_position()
}
