// What a block makes of what the axis keeps.
ghost use Rattle.std.specs.Prelude.{◌≡◌};
ghost use Rattle.table.specs.Tables.{table_means};
ghost use Rattle.axis.specs.Blocks.{kept_by, marked};
ghost use Rattle.axis.specs.Carrying.{set_out, row_travel, preset_memory, reset_memory, programmed};
ghost use Rattle.axis.specs.Memories.{memory_means};

use super::Memory;
use crate::flags::Pace;
use crate::order::DwellRow;
use crate::state::{Kind, State, Travel};
use block::bits::falling;
use block::command::PROGRAM;
use block::refusal::Refusal;

impl Memory {
    // Keeps word 0; a fall of the Program bit ends a programming.
    pub(crate) fn keep(&mut self, bits: u16)
        ensures { memory_means self.new ≡ kept_by (memory_means self.old) bits }
    {
        if let State::Programming = self.state
            && falling(self.kept, bits, PROGRAM)
        {
            self.table.close();
            self.state = State::Idle;
        }
        self.kept = bits;
    }

    // Notes a refused command.
    pub(crate) fn mark(&mut self, refusal: Refusal)
        ensures { memory_means self.new ≡ marked (memory_means self.old) refusal }
    {
        self.flags.command = true;
        if refusal == Refusal::Limit {
            self.flags.input = true;
        }
    }

    // A move sets out.
    pub(crate) fn set_out(&mut self, travel: Travel)
        ensures { memory_means self.new ≡ set_out (memory_means self.old) travel }
    {
        self.state = State::Running(travel);
        self.flags.complete = false;
        self.pace = Pace::default();
    }

    // Along a row of the table.
    pub(crate) fn row_travel(&self, row: DwellRow) -> Travel
        ensures { result ≡ row_travel (table_means self.now.table) row }
    {
        Travel {
            direction: self.table.row(row.index).direction(),
            kind: Kind::Dwell(row),
        }
    }

    // The position is valid, and a held move is abandoned.
    pub(crate) fn preset(&mut self)
        ensures { memory_means self.new ≡ preset_memory (memory_means self.old) }
    {
        self.state = State::Idle;
        self.flags.invalid = false;
        self.flags.complete = false;
    }

    pub(crate) fn reset(&mut self)
        ensures { memory_means self.new ≡ reset_memory (memory_means self.old) }
    {
        self.flags.command = false;
        self.flags.input = false;
        self.flags.complete = false;
    }

    pub(crate) fn program(&mut self)
        ensures { memory_means self.new ≡ programmed (memory_means self.old) }
    {
        self.table.clear();
        self.state = State::Programming;
    }
}
