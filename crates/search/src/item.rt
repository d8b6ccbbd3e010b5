//! One step of a chain.
ghost use Rattle.std.specs.Prelude.{◌<◌, pos, neg_ℤ, ◌≤ℤ◌};
ghost use Rattle.search.specs.Limits.{most_events, most_weight};

use crate::period::Period;

/// Leads from the event `from` to the event `to`. It carries what a step needs to know of `to`: whether that is a
/// frame event, and the period of the frames. A loop names its items by their codes.
#[derive(Clone, Copy)]
pub struct Item {
    pub from: usize,
    pub to: usize,
    pub weight: i64,
    pub period: Period,
    pub framed: bool,
    pub code: u16,
    ghost begins: { from < most_events },
    ghost ends: { to < most_events },
    ghost low: { neg_ℤ (pos most_weight) ≤ℤ weight },
    ghost high: { weight ≤ℤ pos most_weight },
}
