// The plans that the rows of a table make.
ghost use Rattle.std.specs.Prelude.{◌≡◌, ◌≤◌, map};
ghost use Rattle.profile.specs.Plans.{Made};
ghost use Rattle.profile.specs.Rows.{steps_of};
ghost use Rattle.table.specs.Segments.{row_of};
ghost use Rattle.table.specs.Tables.{table_means};
ghost use Rattle.table.specs.TablePlans.{blend_plan, row_plan};

use super::Table;
use profile::extent::measure;
use profile::fault::PlanFault;
use profile::list::RowList;
use profile::plan::Plan;
use profile::rates::Rates;
use profile::row::Row;

impl Table {
    // The rows of a blend. A loop of its own beside `RowList::of`: what they share is `push`.
    fn blend_rows(&self) -> RowList
        ensures { result ≡ map row_of (table_means self.now).rows }
    {
        let mut rows = RowList::new();
        for segment in self.rows() {
            rows.push(Row::from(*segment)).unwrap();
        }
        rows
    }

    // The steps of a blend: the sizes of all rows, by the same sum as its plan's.
    pub fn blend_steps(&self) -> u32
        ensures steps { result ≡ steps_of (map row_of (table_means self.now).rows) }
        ensures few { result ≤ 134217712 }
    {
        measure(self.blend_rows().as_slice()).steps as u32
    }

    // All rows as one plan, signs ignored; its maker adds up the steps and finds the greatest speed.
    pub fn blend_plan(&self, rates: Rates) -> Result<Plan, PlanFault>
        ensures { Made (blend_plan (table_means self.now) rates) result }
    {
        Plan::new(self.start, rates, self.blend_rows().as_slice())
    }

    // Row `i` as a plan of its own.
    pub fn row_plan(&self, rates: Rates, i: usize) -> Result<Plan, PlanFault>
        ensures { Made (row_plan (table_means self.now) rates i) result }
    {
        Plan::new(self.start, rates, &[Row::from(self.row(i))])
    }
}
