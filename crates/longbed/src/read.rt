// Reads a whole script, before any of it is run.
ghost use Rattle.longbed.specs.Takings.{Taken};
ghost use Rattle.script.specs.Lines.{line_said};

use crate::order::{Stage, Start};
use crate::unread::Unread;
use script::line::Line;
use script::read::read_line;
use std::alloc::Global;
use text::lines::Lines;

// A line as it was written, and what it says.
#[derive(Drop)]
pub struct Entry<'a> {
    pub text: &'a [u8],
    pub line: Line,
}

// A script of which every line can be read.
#[derive(Drop)]
pub struct Script<'a> {
    pub start: Start,
    pub entries: Vec<Entry<'a>>,
}

// What a line says, and the stage after it.
pub fn take_text(heap: Global, stage: Stage, text: &[u8]) -> Result<(Stage, Line), Unread>
    ensures { Taken stage (line_said text.now) result }
{
    let line = read_line(heap, text)?;
    let after = stage.after(&line)?;
    Ok((after, line))
}

// The script, if every line can be read and one names a bed; each line that cannot be read is told.
pub fn read_script<'a>(rt: &HostRuntime, script: &'a [u8]) -> anyhow::Result<Option<Script<'a>>> {
    let heap = rt.alloc();
    let mut stage = Stage::Unnamed;
    // None from the first line on that cannot be read.
    let mut entries = Some(Vec::new(heap));
    for (number, text) in (1u64..).zip(Lines::of(script)) {
        match take_text(heap, stage, text) {
            Ok((after, line)) => {
                stage = after;
                if let Some(entries) = &mut entries {
                    entries.push(Entry { text, line })?;
                }
            }
            Err(unread) => {
                eprintln!(rt; "line {number}: {unread}")?;
                entries = None;
            }
        }
    }
    match stage {
        Stage::Unnamed => {
            eprintln!(rt; "the script names no bed")?;
            Ok(None)
        }
        Stage::Preparing(start) | Stage::Calling(start) => {
            Ok(entries.map(|entries| Script { start, entries }))
        }
    }
}
