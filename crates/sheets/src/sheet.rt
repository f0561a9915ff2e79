// A score sheet: the first rows of the memory that its caller lends.
ghost use Rattle.std.specs.Prelude.{◌≤◌, length};

use crate::rows::Row;

pub mod entries;
pub mod results;

// The most rows that a sheet holds, however long its memory.
pub const MOST_ROWS: usize = 128;

// The memory is its owner's, who finds the rows there after the sheet: so a slice with a length beside
// it, and no `Vec`.
#[derive(Drop)]
pub struct Sheet<'a> {
    rows: &'a mut [Row],
    used: usize,
    ghost within: { used ≤ length rows.now },
    ghost few: { used ≤ 128 },
}
