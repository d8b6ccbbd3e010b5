//! A released scan: it can be read, and has to be closed once.
ghost use Rattle.std.specs.Prelude.{◌≡◌, map, length, drop, pos, ◌≤ℤ◌};
ghost use Rattle.book.specs.Held.{row_of};
ghost use Rattle.planner.specs.Plans.{plan_book, plan_times};
ghost use Rattle.planner.specs.Closing.{is_reached, all_reached, Counted};

use crate::plan::Plan;
use book::{Row, frames};

/// A plan that is not changed any more. It is no `Drop`: a program that lets one go without closing it is refused.
pub struct Released {
    plan: Plan,
}

/// Of the frame events other than the opening: how many there are, and how many have a time of at most the closing
/// tick.
#[derive(Clone, Copy, Debug, PartialEq, Eq)]
pub struct Closing {
    pub planned: usize,
    pub reached: usize,
}

// Whether the event is a frame event whose time has come by the tick.
fn is_reached(row: &Row, time: i64, tick: u64) -> bool
    ensures { result ≡ is_reached tick (row_of row.now) time }
{
    row.mark.is_frame() && i128::from(time) <= i128::from(tick)
}

// How many events are reached, the opening left out.
fn count_reached(rows: &[Row], times: &[i64], tick: u64) -> usize
    ensures { result ≡ all_reached tick (drop 1 (map row_of rows.now)) (drop 1 times.now) }
{
    rows.iter()
        .zip(times)
        .skip(1)
        .filter(|(row, time)| is_reached(row, **time, tick))
        .count()
}

impl Plan {
    /// Uses the plan up and gives the scan that it planned.
    pub fn release(self) -> Released
        ensures { result.plan ≡ self }
    {
        Released { plan: self }
    }
}

/// What can be read of a released scan: its length, and the events and their times by number, and its depth.
// Two slices, since a plan holds its times as the solver answered them, apart from its rows.
#[derive(Clone, Copy)]
pub struct View<'a> {
    pub length: i64,
    pub rows: &'a [Row],
    pub times: &'a [i64],
    pub depth: usize,
}

impl Released {
    /// All that can be read of it.
    pub fn view(&self) -> View<'_>
        ensures length { result.length ≡ (plan_book self.now.plan).length }
        ensures some { pos 1 ≤ℤ result.length }
        ensures rows { result.rows.now ≡ self.now.plan.table.rows.items }
        ensures times { result.times.now ≡ plan_times self.now.plan }
        ensures many { length result.times.now ≡ length result.rows.now }
        ensures depth { result.depth ≡ self.now.plan.found.depth }
    {
        View {
            length: self.plan.table.length,
            rows: self.plan.table.rows.as_slice(),
            times: self.plan.times(),
            depth: self.plan.depth(),
        }
    }

    /// What closing at this tick would answer.
    pub fn counts(&self, tick: u64) -> Closing
        ensures { Counted tick (plan_book self.now.plan).rows (plan_times self.now.plan) result.planned result.reached }
    {
        let view = self.view();
        Closing {
            planned: frames(&view.rows[1..]),
            reached: count_reached(view.rows, view.times, tick),
        }
    }

    /// Closes the scan at the tick where the shutter fell.
    pub fn close(self, tick: u64) -> Closing
        ensures { Counted tick (plan_book self.plan).rows (plan_times self.plan) result.planned result.reached }
    {
        let closing = self.counts(tick);
        let Released { plan } = self;
        drop(plan);
        closing
    }
}
