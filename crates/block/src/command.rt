// The ten commands of a block, each a bit of word 0.
ghost use Rattle.std.specs.Prelude.{◌≡◌};
ghost use Rattle.block.specs.Commands.{commanded as commanded_of};

use crate::refusal::Refusal;

// The bit of word 0 that stays set through a programming.
pub const PROGRAM: u16 = 0x0800;

// The bit of word 0 that adds a row.
pub const SEGMENT: u16 = 0x1000;

#[derive(Clone, Copy, PartialEq, Eq, Debug)]
pub enum Command {
    Absolute,
    Relative,
    Hold,
    Resume,
    Stop,
    Preset,
    Reset,
    Program,
    Segment,
    Run,
}

// The command whose bit alone rises; none where no bit does. No `TryFrom`: that nothing is commanded is an answer and no refusal. With
// the bits as discriminants the same match would stand here.
pub fn commanded(rising: u16) -> Result<Option<Command>, Refusal>
    ensures { result ≡ commanded_of rising }
{
    match rising {
        0x0000 => Ok(None),
        0x0001 => Ok(Some(Command::Absolute)),
        0x0002 => Ok(Some(Command::Relative)),
        0x0004 => Ok(Some(Command::Hold)),
        0x0008 => Ok(Some(Command::Resume)),
        0x0010 => Ok(Some(Command::Stop)),
        0x0200 => Ok(Some(Command::Preset)),
        0x0400 => Ok(Some(Command::Reset)),
        PROGRAM => Ok(Some(Command::Program)),
        SEGMENT => Ok(Some(Command::Segment)),
        0x2000 => Ok(Some(Command::Run)),
        _ => Err(Refusal::SeveralCommands),
    }
}
