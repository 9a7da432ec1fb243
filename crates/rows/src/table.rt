// The rows of a table, which are constants.
ghost use Rattle.std.specs.Prelude.{◌≤◌, length};

use crate::Row;

// A table: at most 12 rows.
#[derive(Clone, Copy)]
pub struct Rows<'a> {
    pub rows: &'a [Row],
    ghost few: { length rows.now ≤ 12 },
}
