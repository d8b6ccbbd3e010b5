//! Counts of rows.
ghost use Rattle.std.specs.Prelude.{◌≡◌, ◌≤◌, map, length};
ghost use Rattle.book.specs.Book.{frames};
ghost use Rattle.book.specs.Held.{row_of};

use crate::row::Row;

/// How many of the rows are frame events.
pub fn frames(rows: &[Row]) -> usize
    ensures is { result ≡ frames (map row_of rows.now) }
    ensures few { result ≤ length rows.now }
{
    rows.iter().filter(|row| row.mark.is_frame()).count()
}
