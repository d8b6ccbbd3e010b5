//! What a plan holds of an event, and of a gap.
ghost use Rattle.std.specs.Prelude.{◌<◌, pos, neg_ℤ, ◌≤ℤ◌};
ghost use Rattle.book.specs.Limits.{most_events, most_length, most_width};

use crate::mark::Mark;
use crate::name::Name;

/// An event lies from `earliest` to `latest`, both included.
#[derive(Clone, Copy, Debug, PartialEq, Eq)]
pub struct Window {
    pub earliest: i64,
    pub latest: i64,
    ghost from_zero: { pos 0 ≤ℤ earliest },
    ghost forward: { earliest ≤ℤ latest },
    ghost short: { latest ≤ℤ pos most_length },
}

/// An event: its number is its place among the rows.
#[derive(Clone, Copy, Debug, PartialEq, Eq)]
pub struct Row {
    pub name: Name,
    pub mark: Mark,
    pub window: Window,
}

/// The time of `to` less the time of `from` is at most `width`.
#[derive(Clone, Copy, Debug, PartialEq, Eq)]
pub struct Gap {
    pub from: usize,
    pub to: usize,
    pub width: i64,
    ghost begins: { from < most_events },
    ghost ends: { to < most_events },
    ghost low: { neg_ℤ (pos most_width) ≤ℤ width },
    ghost high: { width ≤ℤ pos most_width },
}
