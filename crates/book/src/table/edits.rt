//! What can be done to a table. Nothing here asks for memory but `fresh`.
ghost use Rattle.std.specs.Prelude.{◌≡◌, ◌+◌, ◌-◌, ◌<◌, true, false, [], ◌∷◌, ◌++◌, map, length, take, pos, ◌≤ℤ◌, IfOk, vec_len, MatchOption};
ghost use Rattle.book.specs.Limits.{most_events, most_gaps, most_length};
ghost use Rattle.book.specs.Book.{opening as opening_row, made, fresh as fresh_book, with_rows, with_gaps, good_window, Lookup};
ghost use Rattle.book.specs.Held.{row_of, gap_of, book_of};

use crate::limits::{EVENTS, GAPS};
use crate::mark::Mark;
use crate::name::Name;
use crate::row::{Gap, Row, Window};
use crate::table::Table;
use search::Period;
use std::alloc::{AllocError, Global};

// The row of the opening: a frame event whose window counts for nothing.
fn opening() -> Row
    ensures { row_of result ≡ opening_row }
{
    Row {
        name: Name::opening(),
        mark: Mark::Frame,
        window: Window {
            earliest: 0,
            latest: 0,
        },
    }
}

// The number of the first row that has the name.
fn named(rows: &[Row], name: &[u8]) -> Option<usize>
    ensures { Lookup (map row_of rows.now) name.now result }
{
    rows.iter().position(|row| row.name.as_bytes() == name)
}

impl Table {
    /// The opening alone with period and length 1, and all the memory that the table will ever want.
    pub fn fresh(heap: Global) -> Result<Table, AllocError>
        ensures { IfOk result (λ t. book_of t ≡ fresh_book) }
    {
        let mut rows = Vec::with_capacity(heap, EVENTS)?;
        let gaps = Vec::with_capacity(heap, GAPS)?;
        rows.push_reserved(opening());
        Ok(Table {
            period: Period::one(),
            length: 1,
            rows,
            gaps,
        })
    }

    /// Turns it into the opening alone.
    pub fn make(&mut self, period: Period, length: i64)
        requires { (pos 1 ≤ℤ length) × (length ≤ℤ pos most_length) }
        ensures { book_of self.new ≡ made period.ticks length }
    {
        self.period = period;
        self.length = length;
        self.rows.clear();
        self.rows.push_reserved(opening());
        self.gaps.clear();
    }

    /// The window from `earliest` to `latest`, where it goes forward from 0 on and within the length.
    pub fn window_of(&self, earliest: i64, latest: i64) -> Option<Window>
        ensures { MatchOption result (good_window (book_of self.now) earliest latest ≡ false) (λ w. (good_window (book_of self.now) earliest latest ≡ true) × (w.earliest ≡ earliest) × (w.latest ≡ latest)) }
    {
        if earliest < 0 || latest < earliest || self.length < latest {
            return None;
        }
        Some(Window { earliest, latest })
    }

    // For rows and for gaps a method each: one call of the vector's own, with what it does to the book.

    /// Adds a row behind the others.
    pub fn push_row(&mut self, row: Row)
        requires { vec_len self.old.rows < most_events }
        ensures book { book_of self.new ≡ with_rows (book_of self.old) ((book_of self.old).rows ++ row_of row ∷ []) }
        ensures many { vec_len self.new.rows ≡ vec_len self.old.rows + 1 }
    {
        self.rows.push_reserved(row);
    }

    /// Takes the last row out again.
    pub fn pop_row(&mut self)
        requires { 1 < vec_len self.old.rows }
        ensures { book_of self.new ≡ with_rows (book_of self.old) (take (length (book_of self.old).rows - 1) (book_of self.old).rows) }
    {
        let _ = self.rows.pop();
    }

    /// Adds a gap behind the others.
    pub fn push_gap(&mut self, gap: Gap)
        requires { vec_len self.old.gaps < most_gaps }
        ensures { book_of self.new ≡ with_gaps (book_of self.old) ((book_of self.old).gaps ++ gap_of gap ∷ []) }
    {
        self.gaps.push_reserved(gap);
    }

    /// Takes the last gap out again.
    pub fn pop_gap(&mut self)
        ensures { book_of self.new ≡ with_gaps (book_of self.old) (take (length (book_of self.old).gaps - 1) (book_of self.old).gaps) }
    {
        let _ = self.gaps.pop();
    }

    /// The number of the event that has this name.
    pub fn number_of(&self, name: &[u8]) -> Option<usize>
        ensures { Lookup (book_of self.now).rows name.now result }
    {
        named(self.rows.as_slice(), name)
    }
}
