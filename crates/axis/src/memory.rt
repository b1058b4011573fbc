// What the axis keeps of its own, beside its drive and its profile.
ghost use Rattle.std.specs.Prelude.{◌≡◌};
ghost use Rattle.axis.specs.Memories.{memory_means, first_memory};

use crate::flags::{Flags, Levels, Pace};
use crate::state::State;
use table::table::Table;

mod rests;
mod runs;
mod tells;

// What it means is said by `memory_means`: a model in its place would save a word in each clause, and bring an `impl`.
#[derive(Drop)]
pub struct Memory {
    pub(crate) table: Table,
    pub(crate) state: State,
    // Word 0 of the last block that was kept.
    pub(crate) kept: u16,
    pub(crate) flags: Flags,
    pub(crate) levels: Levels,
    pub(crate) pace: Pace,
}

impl Memory {
    // Empty of any past.
    pub(crate) fn power_up() -> Memory
        ensures { memory_means result ≡ first_memory }
    {
        Memory {
            table: Table::new(1),
            state: State::Idle,
            kept: 0,
            flags: Flags {
                configuration: true,
                invalid: true,
                ..Flags::default()
            },
            levels: Levels::default(),
            pace: Pace::default(),
        }
    }
}
