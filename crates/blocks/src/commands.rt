// Command blocks: a command for each axis that they name.
ghost use Rattle.std.specs.Prelude.{◌≡◌};
ghost use Rattle.blocks.specs.declared.kinds.Kind.TheVariants.{Commands};
ghost use Rattle.blocks.specs.Commands.{command_digits, command_written, command_ranges, written_command, command_of_written, command_questions, commands};
ghost use Rattle.blocks.specs.Questions.{answer};

use crate::block::{Block, read_block};
use crate::fields::{RecordWords, read_fields};
use crate::kinds::Kind;
use crate::records::Records;
use modes::Command;
use words::{AxisId, Fault, Question};

// A command as it is written: two numbers, since the digits of every record are asked before the range of any.
#[derive(Clone, Copy)]
pub(crate) struct Written {
    pub code: u16,
    pub argument: u16,
}

// The word of a command's record that is out of its range, by its index in the record.
#[derive(Clone, Copy)]
pub(crate) enum OutOfRange {
    Code = 1,
    Argument = 2,
}

impl TryFrom<Written> for Command {
    type Error = OutOfRange;

    ghost try_from_gives = { λ written r. r ≡ command_of_written written };

    fn try_from(written: Written) -> Result<Command, OutOfRange> {
        let Written { code, argument } = written;
        let most = if code == 8 { 127 } else { 0 };
        match code {
            1..=8 if argument > most => Err(OutOfRange::Argument),
            1 => Ok(Command::Begin),
            2 => Ok(Command::Start),
            3 => Ok(Command::SlideStop),
            4 => Ok(Command::SearchHome),
            5 => Ok(Command::JogForward),
            6 => Ok(Command::JogReverse),
            7 => Ok(Command::Reset),
            8 => Ok(Command::Override(argument as u8)),
            _ => Err(OutOfRange::Code),
        }
    }
}

#[derive(Drop)]
struct CommandBlock;

impl Block for CommandBlock {
    type Written = Written;

    type Value = Command;

    const KIND: Kind = Kind::Commands;

    ghost KIND = { Commands };

    ghost digits = { command_digits };

    ghost written = { command_written };

    ghost ranges = { λ _. command_ranges };

    ghost value = { written_command };

    fn read(words: RecordWords) -> Result<Written, Fault> {
        let [code, argument] = read_fields::<u16, 2>(words, 1)?;
        Ok(Written { code, argument })
    }

    fn check(&self, axis: AxisId, start: usize, written: Written) -> Result<Command, Fault> {
        Command::try_from(written).map_err(|wrong| Question::Range.refused(
            axis,
            start + wrong as usize,
        ))
    }
}

// The commands that a block has for its axes, or its first no.
pub fn read_commands(words: &[u16]) -> Result<Records<Command>, Fault>
    ensures { result ≡ answer (command_questions words.now) (commands words.now) }
{
    read_block(&CommandBlock, words)
}
