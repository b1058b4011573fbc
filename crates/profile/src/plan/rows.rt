// Which rows may stand in a plan, and where.
ghost use Rattle.std.specs.Prelude.{◌≡◌, ◌≤◌, length, take};
ghost use Rattle.profile.specs.Rows.{is_row, are_rows};

use crate::row::Row;

// Whether a row may stand in a plan with this starting speed.
fn is_row(start: u32, row: Row) -> bool
    ensures { result ≡ is_row start row }
{
    1 <= row.steps && (start..=200_000).contains(&row.speed)
}

// Whether each row may.
pub(super) fn are_rows(start: u32, rows: &[Row]) -> bool
    ensures { result ≡ are_rows start rows.now }
{
    rows.iter().all(|row| is_row(start, *row))
}

// The rows, in sixteen places. A plan is made of them once it is judged, in one copy.
pub(super) fn in_places(rows: &[Row]) -> [Row; 16]
    requires { length rows.now ≤ 16 }
    ensures { take (length rows.now) result ≡ rows.now }
{
    let mut places = [Row::default(); 16];
    places[..rows.len()].copy_from_slice(rows);
    places
}
