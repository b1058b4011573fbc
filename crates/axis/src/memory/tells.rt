// What a reading tells of what the axis keeps.
ghost use Rattle.std.specs.Prelude.{◌≡◌};
ghost use Rattle.axis.specs.Memories.{memory_means};
ghost use Rattle.axis.specs.Readings.{waits, accelerates, decelerates};

use super::Memory;
use block::command::SEGMENT;

impl Memory {
    // Whether a row is waited for.
    pub(crate) fn waits(&self) -> bool
        ensures { result ≡ waits (memory_means self.now) }
    {
        self.state.programs() && self.table.has_room() && self.kept & SEGMENT == 0
    }

    // Whether the last advance is above the one before.
    pub(crate) fn accelerates(&self) -> bool
        ensures { result ≡ accelerates (memory_means self.now) }
    {
        self.state.is_moving() && self.pace.before < self.pace.last
    }

    // Whether it is below.
    pub(crate) fn decelerates(&self) -> bool
        ensures { result ≡ decelerates (memory_means self.now) }
    {
        self.state.is_moving() && self.pace.last < self.pace.before
    }
}
