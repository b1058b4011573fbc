// What the program prints of its calls.
ghost use Rattle.std.specs.Prelude.{◌≡◌, drop, length, take};
ghost use Rattle.longbed.specs.Callings.{calls_in};
ghost use Rattle.script.specs.Readings.{line_means};

use crate::outcome::End;
use crate::read::Entry;
use axis::flags::Flags;
use block::refusal::answer_number;
use runs::call::Answer;
use runs::entry::Entry as Note;
use script::line::Line;
use std::{fmt, io};
use text::text::{Words, uncommented};

// The words of a line as they were written, with one space between them. No `Display`: the words are bytes, and that writes text.
pub fn print_words(rt: &HostRuntime, text: &[u8]) -> io::Result<()> {
    let mut words = Words::of(uncommented(text));
    if let Some(word) = words.next() {
        rt.write_all(word)?;
    }
    for word in words {
        print!(rt; " ")?;
        rt.write_all(word)?;
    }
    Ok(())
}

// What a call answered, after a space: its number, its steps, or its number and the words of its buffer.
#[derive(Clone, Copy)]
struct Told<'a>(&'a Answer);

impl fmt::Display for Told<'_> {
    fn fmt<W: fmt::Write>(&self, f: &mut fmt::Formatter<W>) -> fmt::Result {
        match self.0 {
            Answer::Replied(answer) => write!(f, " {}", answer_number(*answer)),
            Answer::Sent(steps) => write!(f, " {steps}"),
            Answer::Read(answer, words) => {
                write!(f, " {}", answer_number(*answer))?;
                for word in words.iter() {
                    write!(f, " {word}")?;
                }
                Ok(())
            }
        }
    }
}

// What the calls of a line answered, one after the other.
#[derive(Clone, Copy)]
struct Answers<'a>(&'a [Note]);

impl fmt::Display for Answers<'_> {
    fn fmt<W: fmt::Write>(&self, f: &mut fmt::Formatter<W>) -> fmt::Result {
        for note in self.0 {
            write!(f, "{}", Told(&note.answer))?;
        }
        Ok(())
    }
}

// How many calls a line makes.
fn call_count(line: &Line) -> usize
    ensures { result ≡ length (calls_in (line_means line.now)) }
{
    match line {
        Line::Tick(count) => *count as usize,
        Line::Setup(_) | Line::Block(_) | Line::Event(_) | Line::Reading(_) => 1,
        Line::Blank | Line::Bed(_) | Line::At(_) | Line::Tripped => 0,
    }
}

// Prints a line of calls with what they answered. A line that makes no call, as it is one of the bed, is not printed. A line of one call
// is written at once, and one of many ticks as it goes, so that it needs no memory of its own.
fn print_calls(rt: &HostRuntime, entry: &Entry, notes: &[Note]) -> io::Result<()> {
    match &entry.line {
        Line::Setup(speed) => println!(rt; "setup {speed}:{}", Answers(notes)),
        Line::Block(_) => {
            print_words(rt, entry.text)?;
            println!(rt; ":{}", Answers(notes))
        }
        Line::Event(code) => println!(rt; "event {code}:{}", Answers(notes)),
        Line::Tick(count) => {
            print!(rt; "tick {count}:")?;
            for note in notes {
                print!(rt; "{}", Told(&note.answer))?;
            }
            println!(rt)
        }
        Line::Reading(size) => {
            print!(rt; "reading {size}:")?;
            println!(rt; "{}", Answers(notes))
        }
        Line::Blank | Line::Bed(_) | Line::At(_) | Line::Tripped => Ok(()),
    }
}

// The notes of a line's calls, as far as there are any, and those after them.
fn split_notes<'a>(line: &Line, notes: &'a [Note]) -> (&'a [Note], &'a [Note])
    ensures own { result.0.now ≡ take (length (calls_in (line_means line.now))) notes.now }
    ensures after { result.1.now ≡ drop (length (calls_in (line_means line.now))) notes.now }
{
    notes.split_at(call_count(line).min(notes.len()))
}

// Prints the lines of a script with what their calls answered, up to the first call that is not in the journal.
pub fn print_journal(rt: &HostRuntime, entries: &[Entry], journal: &[Note]) -> io::Result<()> {
    let mut rest = journal;
    for entry in entries {
        let (notes, after) = split_notes(&entry.line, rest);
        let is_whole = notes.len() == call_count(&entry.line);
        if is_whole || !notes.is_empty() {
            print_calls(rt, entry, notes)?;
        }
        if !is_whole {
            return Ok(());
        }
        rest = after;
    }
    Ok(())
}

// The names of the flags that are set, each after a space.
#[derive(Clone, Copy)]
struct Names(Flags);

impl fmt::Display for Names {
    fn fmt<W: fmt::Write>(&self, f: &mut fmt::Formatter<W>) -> fmt::Result {
        let flags = self.0;
        if flags == Flags::default() {
            return f.write_str(" none");
        }
        for (set, name) in [
            (flags.configuration, "Configuration_Error"),
            (flags.command, "Command_Error"),
            (flags.input, "Input_Error"),
            (flags.invalid, "Position_Invalid"),
            (flags.complete, "Move_Complete"),
        ] {
            if set {
                write!(f, " {name}")?;
            }
        }
        Ok(())
    }
}

// How the axis stands at the end.
pub fn print_end(rt: &HostRuntime, end: &End) -> io::Result<()> {
    println!(rt; "= position {}", end.position)?;
    println!(rt; "= place {}", end.place)?;
    if let Some(coils) = end.coils {
        println!(rt; "= coils {coils}")?;
    }
    println!(rt; "= flags{}", Names(end.flags))
}
