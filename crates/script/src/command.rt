// The commands of a call script, by their names.
ghost use Rattle.script.specs.Commands.{command_word};

use bed::fault::LineFault;
use bed::word::FromWord;

#[derive(Clone, Copy, PartialEq, Eq, Debug)]
pub enum Command {
    Bed,
    At,
    Tripped,
    Setup,
    Block,
    Event,
    Tick,
    Reading,
}

impl FromWord for Command {
    ghost read = { command_word };

    fn from_word(word: &[u8]) -> Result<Command, LineFault> {
        match word {
            b"bed" => Ok(Command::Bed),
            b"at" => Ok(Command::At),
            b"tripped" => Ok(Command::Tripped),
            b"setup" => Ok(Command::Setup),
            b"block" => Ok(Command::Block),
            b"event" => Ok(Command::Event),
            b"tick" => Ok(Command::Tick),
            b"reading" => Ok(Command::Reading),
            _ => Err(LineFault::UnknownCommand),
        }
    }
}
