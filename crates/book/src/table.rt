//! The rows and gaps of a plan, with room for all that they may come to.
ghost use Rattle.std.specs.Prelude.{◌<◌, ◌≤◌, pos, ◌≤ℤ◌, vec_len, vec_capacity};
ghost use Rattle.book.specs.Limits.{most_events, most_gaps, most_length};

use crate::row::{Gap, Row};
use search::Period;

/// Row 0 is the opening.
#[derive(Drop)]
pub struct Table {
    pub period: Period,
    pub length: i64,
    pub rows: Vec<Row>,
    pub gaps: Vec<Gap>,
    ghost long: { pos 1 ≤ℤ length },
    ghost short: { length ≤ℤ pos most_length },
    ghost opens: { 0 < vec_len rows },
    ghost few_rows: { vec_len rows ≤ most_events },
    ghost few_gaps: { vec_len gaps ≤ most_gaps },
    ghost room_rows: { most_events ≤ vec_capacity rows },
    ghost room_gaps: { most_gaps ≤ vec_capacity gaps },
}

mod edits;
