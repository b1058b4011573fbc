// A list of rows in fixed memory.
ghost use Rattle.std.specs.Prelude.{◌≡◌, ◌==◌, ◌≤◌, ◌++◌, ◌∷◌, [], length, if◌then◌else◌, nat_lt, nat_le, take, Some, None, Ok, Err};

use crate::row::Row;
use std::marker::Model;

// At most sixteen rows, the first `count` of the array. The places past them hold no steps and no speed, so equal lists have equal fields.
// No heap, by a rule of the project. With an `ArrayVec` the lines of a script would not be `Copy`, as whoever holds them may count on.
#[derive(Clone, Copy, PartialEq, Eq, Debug)]
pub struct RowList {
    rows: [Row; 16],
    count: usize,
}

impl Model for RowList {
    ghost use Rattle.std.specs.Prelude.{List};
    ghost use Rattle.profile.specs.declared.row.Row.{Row};

    ghost Value = { List Row };

    ghost use Rattle.profile.specs.RowLists.{Filled, kept_of, filled, filled_again};

    ghost view = { kept_of };

    ghost invariant = { Filled };

    ghost inverse = { filled };

    ghost inverse_ok = { filled_again };
}

impl RowList {
    // Without a row.
    pub fn new() -> Self
        ensures { result ≡ [] }
    {
        RowList {
            rows: [Row::default(); 16],
            count: 0,
        }
    }

    // These rows, unless they are too many: no `TryFrom`, whose error would say no more than `None`. (With `try_for_each` or
    // `copy_from_slice` in place of the loop the proof did not close.)
    pub fn of(rows: &[Row]) -> Option<Self>
        ensures { result ≡ (if nat_le (length rows.now) 16 then Some rows.now else None) }
    {
        let mut list = RowList::new();
        for row in rows {
            list.push(*row).ok()?;
        }
        Some(list)
    }

    // One more row at the end. A list that is full stays as it is, and gives the row back.
    pub fn push(&mut self, row: Row) -> Result<(), Row>
        ensures answer { result ≡ (if nat_lt (length self.old) 16 then Ok tt else Err row) }
        ensures rows { self.new ≡ (if nat_lt (length self.old) 16 then self.old ++ row ∷ [] else self.old) }
    {
        if self.is_full() {
            return Err(row);
        }
        self.rows[self.count] = row;
        self.count += 1;
        Ok(())
    }

    pub fn as_slice(&self) -> &[Row]
        ensures rows { result.now ≡ self.now }
        ensures few { length self.now ≤ 16 }
    {
        &self.rows[..self.count]
    }

    pub fn len(&self) -> usize
        ensures count { result ≡ length self.now }
        ensures few { result ≤ 16 }
    {
        self.count
    }

    pub fn is_empty(&self) -> bool
        ensures { result ≡ (length self.now == 0) }
    {
        self.count == 0
    }

    pub fn is_full(&self) -> bool
        ensures full { result ≡ (length self.now == 16) }
        ensures few { length self.now ≤ 16 }
    {
        self.count == 16
    }
}
