// The place of the next millistep among the rows of a plan.
ghost use Rattle.std.specs.Prelude.{◌≡◌, ◌*◌, ◌<◌, ◌≤◌};
ghost use Rattle.profile.specs.Rows.{steps_of};
ghost use Rattle.ramp.specs.Speeds.{speed_at};

use profile::row::Row;

// So many rows have been passed, and they have so many millisteps.
#[derive(Clone, Copy, Default)]
pub(crate) struct Place {
    passed: usize,
    before: u64,
}

impl Place {
    ghost use Rattle.ramp.specs.Places.{IsPlace};

    // The speed of the row that holds the millistep after the first `gone`. The rows before it are passed: `passed` is kept from tick
    // to tick, so the loop mostly looks at one row.
    pub(crate) fn speed_after(&mut self, rows: &[Row], gone: u64) -> u32
        requires here { IsPlace rows.now gone self.old }
        requires held { gone < 1000 * steps_of rows.now }
        requires near { gone ≤ 16777214000 }
        ensures here { IsPlace rows.now gone self.new }
        ensures speed { result ≡ speed_at rows.now gone }
    {
        for (i, row) in rows[self.passed..].iter().enumerate() {
            let end = self.before + 1000 * row.steps as u64;
            if gone < end {
                self.passed += i;
                return row.speed;
            }
            self.before = end;
        }
        unreachable!()
    }
}
