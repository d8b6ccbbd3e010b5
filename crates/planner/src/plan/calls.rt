//! The calls of a plan. Each makes its checks in their order; a refusal leaves the plan as it was.
ghost use Rattle.std.specs.Prelude.{◌≡◌, true, false, length, pos, IfOk, OnOk, OnErr, Some, None, MatchResult, slice_index_or, vec_len};
ghost use Rattle.book.specs.Book.{fresh as fresh_book, Lookup};
ghost use Rattle.book.specs.Held.{row_of, gap_of, book_of};
ghost use Rattle.planner.specs.Calls.{make as make_call, event as event_call, gap as gap_call, known, failed, ByBook};
ghost use Rattle.planner.specs.Plans.{plan_book, plan_times, IsAlone};
ghost use Rattle.planner.specs.Refusals.{number_of, said_plain, said_number};

use crate::plan::Plan;
use crate::refusal::Refusal;
use book::limits::{EVENTS, GAPS, LENGTH, PERIOD, WIDTH};
use book::{Gap, Mark, Name, Row, Table};
use search::Period;
use std::alloc::{AllocError, Global};
use timetable::{Found, Loop, solve};

// The timetable of the opening alone.
fn alone() -> Found
    ensures { IsAlone result }
{
    Found {
        depth: 0,
        times: [0; EVENTS],
    }
}

// Puts the latest timetable of the table in place of the one found before. Where there is none, that one stays.
fn retime(table: &Table, found: &mut Found) -> Result<(), Loop>
    ensures { OnErr result (found.new ≡ found.old) }
{
    *found = solve(table.period, table.rows.as_slice(), table.gaps.as_slice())?;
    Ok(())
}

// The row of a new event, from the arguments that the rules give the call.
#[tactic(auto, using(crate::proofs::Holds::rows_many))]
fn row_of(
    table: &Table,
    name: &[u8],
    mark: Mark,
    earliest: i64,
    latest: i64,
) -> Result<Row, Refusal>
    ensures { MatchResult result (λ x. (failed (book_of table.now) (event_call name.now mark earliest latest) ≡ None) × (row_of x ≡ record { name = name.now; mark = mark; earliest = earliest; latest = latest })) (λ e. failed (book_of table.now) (event_call name.now mark earliest latest) ≡ Some (number_of e)) }
{
    if table.rows.len() >= EVENTS {
        return Err(Refusal::EventsFull);
    }
    let spelled = Name::try_from(name)?;
    if table.number_of(name).is_some() {
        return Err(Refusal::NameTaken);
    }
    // Not by `ok_or` and `?`: what is known of the call does not reach the end that `?` makes.
    let Some(window) = table.window_of(earliest, latest) else {
        return Err(Refusal::EventWindow);
    };
    Ok(Row {
        name: spelled,
        mark,
        window,
    })
}

// The new gap, from the arguments that the rules give the call.
#[tactic(auto, using(crate::proofs::Holds::rows_many, crate::proofs::Holds::gaps_many))]
fn gap_of(table: &Table, from: usize, to: usize, width: i64) -> Result<Gap, Refusal>
    ensures { MatchResult result (λ x. (failed (book_of table.now) (gap_call from to width) ≡ None) × (gap_of x ≡ record { from = from; to = to; width = width })) (λ e. failed (book_of table.now) (gap_call from to width) ≡ Some (number_of e)) }
{
    if from >= table.rows.len() || to >= table.rows.len() {
        return Err(Refusal::GapUnknownEvent);
    }
    if from == to {
        return Err(Refusal::GapSameEvent);
    }
    if !(-WIDTH..=WIDTH).contains(&width) {
        return Err(Refusal::GapWidth);
    }
    if table.gaps.len() >= GAPS {
        return Err(Refusal::GapsFull);
    }
    Ok(Gap { from, to, width })
}

impl Plan {
    /// A fresh plan, with all the memory that it will ever want: period 1, length 1 and the opening alone.
    pub fn fresh(heap: Global) -> Result<Plan, AllocError>
        ensures { IfOk result (λ p. (plan_book p ≡ fresh_book) × IsAlone p.found) }
    {
        let table = Table::fresh(heap)?;
        Ok(Plan {
            table,
            found: alone(),
        })
    }

    // Of make, event and gap each promises of itself that a refusal leaves the times.

    /// Turns it into the opening alone, with this period and length.
    pub fn make(&mut self, period: i64, length: i64) -> Result<(), Refusal>
        ensures answer { ByBook (plan_book self.old) (make_call period length) (said_plain result) (plan_book self.new) }
        ensures alone { OnOk result (IsAlone self.new.found) }
        ensures stays { OnErr result (self.new.found ≡ self.old.found) }
    {
        let clock = Period::try_from(period)?;
        if period > PERIOD {
            return Err(Refusal::PeriodRange);
        }
        if !(1..=LENGTH).contains(&length) {
            return Err(Refusal::LengthRange);
        }
        self.table.make(clock, length);
        self.found = alone();
        Ok(())
    }

    // The next two take the same steps; what is checked, put in, taken out and said differs in each.

    /// Adds an event, and answers its number.
    #[tactic(auto, using(crate::proofs::Holds::rows_many, crate::proofs::Holds::room_for_row))]
    pub fn event(
        &mut self,
        name: &[u8],
        mark: Mark,
        earliest: i64,
        latest: i64,
    ) -> Result<usize, Refusal>
        ensures answer { ByBook (plan_book self.old) (event_call name.now mark earliest latest) (said_number result) (plan_book self.new) }
        ensures stays { OnErr result (self.new.found ≡ self.old.found) }
    {
        let row = row_of(&self.table, name, mark, earliest, latest)?;
        let number = self.table.rows.len();
        self.table.push_row(row);
        if let Err(behind) = retime(&self.table, &mut self.found) {
            self.table.pop_row();
            return Err(Refusal::EventUntimed(behind));
        }
        Ok(number)
    }

    /// Adds a gap, and answers its number.
    #[tactic(auto, using(crate::proofs::Holds::gaps_many, crate::proofs::Holds::room_for_gap))]
    pub fn gap(&mut self, from: usize, to: usize, width: i64) -> Result<usize, Refusal>
        ensures answer { ByBook (plan_book self.old) (gap_call from to width) (said_number result) (plan_book self.new) }
        ensures stays { OnErr result (self.new.found ≡ self.old.found) }
    {
        let gap = gap_of(&self.table, from, to, width)?;
        let number = self.table.gaps.len();
        self.table.push_gap(gap);
        if let Err(behind) = retime(&self.table, &mut self.found) {
            self.table.pop_gap();
            return Err(Refusal::GapUntimed(behind));
        }
        Ok(number)
    }

    // The times of the events that are there, by number.
    pub(super) fn times(&self) -> &[i64]
        ensures is { result.now ≡ plan_times self.now }
        ensures many { length result.now ≡ vec_len self.now.table.rows }
    {
        &self.found.times[0..self.table.rows.len()]
    }

    /// The time of an event.
    pub fn time(&self, event: usize) -> Result<i64, Refusal>
        ensures { MatchResult result (λ t. (known (plan_book self.now) event ≡ true) × (t ≡ slice_index_or (plan_times self.now) event (pos 0))) (λ e. (known (plan_book self.now) event ≡ false) × (number_of e ≡ 60)) }
    {
        // A match: by `copied` and `ok_or` the answer stays open.
        match self.times().get(event) {
            Some(time) => Ok(*time),
            None => Err(Refusal::TimeUnknownEvent),
        }
    }

    /// How many items the chains have that the times rest on.
    pub fn depth(&self) -> usize
        ensures { result ≡ self.now.found.depth }
    {
        self.found.depth
    }

    /// The number of the event that has this name.
    pub fn number_of(&self, name: &[u8]) -> Option<usize>
        ensures { Lookup (plan_book self.now).rows name.now result }
    {
        self.table.number_of(name)
    }
}
