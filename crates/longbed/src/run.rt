// Makes the calls of a script and prints what they answered.
ghost use Rattle.std.specs.Prelude.{IfOk};
ghost use Rattle.longbed.specs.Outcomes.{Follows};

use crate::list::{list_calls, longest_buffer};
use crate::operation::make_calls;
use crate::outcome::{Finished, Interrupted};
use crate::read::Script;
use crate::show::{print_end, print_journal};
use std::alloc::{AllocError, Global};
use thiserror::Error;

#[derive(Clone, Copy, Debug, Error)]
#[error("no memory for all calls of the script")]
struct TooManyCalls;

// Lists the calls of a script and makes them. Where there is no memory for the list, none is made.
pub fn follow(heap: Global, script: &Script) -> Result<Result<Finished, Interrupted>, AllocError>
    ensures { IfOk result (Follows script.now) }
{
    let entries = script.entries.as_slice();
    let sevens = vec![in heap; 7; longest_buffer(entries)]?;
    let calls = list_calls(heap, entries, sevens.as_slice())?;
    Ok(make_calls(heap, script.start, calls.as_slice()))
}

pub fn run(rt: &HostRuntime, script: &Script) -> anyhow::Result<()> {
    let entries = script.entries.as_slice();
    match follow(rt.alloc(), script).or(Err(TooManyCalls))? {
        Ok(finished) => {
            print_journal(rt, entries, finished.journal.as_slice())?;
            print_end(rt, &finished.end)?;
            Ok(())
        }
        Err(interrupted) => {
            print_journal(rt, entries, interrupted.journal.as_slice())?;
            Err(TooManyCalls.into())
        }
    }
}
