// The calls that the lines of a script make, in their order.
ghost use Rattle.std.specs.Prelude.{◌≡◌, ◌≤◌, ◌++◌, map, flat_map, length, replicate, pos, All, IfOk};
ghost use Rattle.law.specs.Calls.{Tick};
ghost use Rattle.longbed.specs.Callings.{buffer_of, calls_in, entry_calls};
ghost use Rattle.runs.specs.Journals.{call_means};
ghost use Rattle.script.specs.Readings.{line_means};

use crate::read::Entry;
use runs::call::Call;
use script::line::Line;
use std::alloc::{AllocError, Global};

// The words of the longest buffer that a line asks for.
pub fn longest_buffer(entries: &[Entry]) -> usize
    ensures { All (λ e. buffer_of (line_means e.line) ≤ result) entries.now }
{
    let mut longest = 0;
    for entry in entries {
        if let Line::Reading(size) = &entry.line {
            longest = longest.max(*size as usize);
        }
    }
    longest
}

// Adds so many ticks.
fn add_ticks(calls: &mut Vec<Call>, count: u32) -> Result<(), AllocError>
    ensures { IfOk result (λ _. map call_means calls.new.items ≡ map call_means calls.old.items ++ replicate count Tick) }
{
    for _i in 0..count {
        calls.push(Call::Tick)?;
    }
    Ok(())
}

// Adds the calls of a line. The buffer of a reading is taken from the sevens.
fn add_calls<'a>(
    calls: &mut Vec<Call<'a>>,
    line: &'a Line,
    sevens: &'a [i16],
) -> Result<(), AllocError>
    requires long { buffer_of (line_means line.now) ≤ length sevens.now }
    requires sevens { sevens.now ≡ replicate (length sevens.now) (pos 7) }
    ensures { IfOk result (λ _. map call_means calls.new.items ≡ map call_means calls.old.items ++ calls_in (line_means line.now)) }
{
    match line {
        Line::Setup(speed) => calls.push(Call::SetUp(*speed))?,
        Line::Block(words) => calls.push(Call::Block(words.as_slice()))?,
        Line::Event(code) => calls.push(Call::Event(*code))?,
        Line::Tick(count) => add_ticks(calls, *count)?,
        Line::Reading(size) => calls.push(Call::Reading(&sevens[..*size as usize]))?,
        Line::Blank | Line::Bed(_) | Line::At(_) | Line::Tripped => {}
    }
    Ok(())
}

// The calls of a script's lines.
pub fn list_calls<'a>(
    heap: Global,
    entries: &'a [Entry<'a>],
    sevens: &'a [i16],
) -> Result<Vec<Call<'a>>, AllocError>
    requires long { All (λ e. buffer_of (line_means e.line) ≤ length sevens.now) entries.now }
    requires sevens { sevens.now ≡ replicate (length sevens.now) (pos 7) }
    ensures { IfOk result (λ calls. map call_means calls.items ≡ flat_map entry_calls entries.now) }
{
    let mut calls = Vec::new(heap);
    for entry in entries {
        add_calls(&mut calls, &entry.line, sevens)?;
    }
    Ok(calls)
}
