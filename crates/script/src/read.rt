// Reads a line of a call script: its first word is the command, and the others are what the command takes.
ghost use Rattle.std.specs.Prelude.{◌≡◌, vec_items};
ghost use Rattle.script.specs.Lines.{count_of, block_words, command_of, line_said};
ghost use Rattle.script.specs.Readings.{Read, line_means};
ghost use Rattle.text.specs.Texts.{words_left};

use crate::command::Command;
use crate::fault::ReadFault;
use crate::line::Line;
use bed::fault::LineFault;
use bed::kind::bed_kind;
use bed::word::{FromWord, complete, only};
use std::alloc::Global;
use text::text::{Words, uncommented};

// How many: as a word says, or so many where none does.
fn count(mut words: Words, unsaid: u32) -> Result<u32, LineFault>
    ensures { result ≡ count_of unsaid (words_left words.entry) }
{
    match words.next() {
        Some(word) => {
            let count = u32::from_word(word)?;
            complete(words, count)
        }
        None => Ok(unsaid),
    }
}

// The words of a block, as many as there are. A `for` and no `try_collect`: that takes a closure with its result's type written out, to make
// a `ReadFault` of the word's fault, and a `map_err` for want of memory, which is no plainer than these lines with their two `?`.
fn block(heap: Global, words: Words) -> Result<Vec<i16>, ReadFault>
    ensures { Read vec_items (block_words (words_left words.entry)) result }
{
    let mut block = Vec::new(heap);
    for word in words {
        block.push(i16::from_word(word)?)?;
    }
    Ok(block)
}

// What a command says with the words after it.
fn command(heap: Global, name: &[u8], words: Words) -> Result<Line, ReadFault>
    ensures { Read line_means (command_of name.now (words_left words.entry)) result }
{
    match Command::from_word(name)? {
        Command::Bed => Ok(Line::Bed(bed_kind(words)?)),
        Command::At => Ok(Line::At(only(words)?)),
        Command::Tripped => {
            complete(words, ())?;
            Ok(Line::Tripped)
        }
        Command::Setup => Ok(Line::Setup(only(words)?)),
        Command::Block => Ok(Line::Block(block(heap, words)?)),
        Command::Event => Ok(Line::Event(only(words)?)),
        Command::Tick => Ok(Line::Tick(count(words, 1)?)),
        Command::Reading => Ok(Line::Reading(count(words, 10)?)),
    }
}

// What a line says, or why it is not read.
pub fn read_line(heap: Global, text: &[u8]) -> Result<Line, ReadFault>
    ensures { Read line_means (line_said text.now) result }
{
    let mut words = Words::of(uncommented(text));
    match words.next() {
        Some(name) => command(heap, name, words),
        None => Ok(Line::Blank),
    }
}
