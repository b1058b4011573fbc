// Why a table does not take a row.
#[derive(Clone, Copy, PartialEq, Eq, Debug)]
pub enum TableFault {
    // It has sixteen rows.
    Full,
    // The row is no segment for its starting speed.
    Unfit,
}
