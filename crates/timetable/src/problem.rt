//! What a timetable is sought for, and its items: the gaps in their order, and then of each event but the opening its
//! two window edges.
ghost use Rattle.std.specs.Prelude.{◌≡◌, ◌+◌, ◌-◌, ◌*◌, ◌<◌, ◌≤◌, true, map, length, take, drop};
ghost use Rattle.std.specs.List.{All};
ghost use Rattle.book.specs.Limits.{most_events, most_gaps, most_loop};
ghost use Rattle.book.specs.Book.{framed as is_framed, joins, all_join};
ghost use Rattle.book.specs.Held.{row_of, gap_of};
ghost use Rattle.timetable.specs.Chains.{gap_items, not_before, not_after, edge_items};
ghost use Rattle.timetable.specs.Gathered.{item_of, gap_item, levels_of};

use book::limits::{EVENTS, NOT_AFTER, NOT_BEFORE};
use book::{Gap, Row, frames};
use search::{Item, Period};
use std::array;

/// The period of the frames, and the events and gaps, which are no more than a plan may have.
#[derive(Drop)]
pub struct Problem<'a> {
    pub period: Period,
    pub rows: &'a [Row],
    pub gaps: &'a [Gap],
    ghost some: { 0 < length rows.now },
    ghost few_rows: { length rows.now ≤ most_events },
    ghost few_gaps: { length gaps.now ≤ most_gaps },
}

impl Problem<'_> {
    ghost use Rattle.timetable.specs.Problem.{rows_of, gaps_of, stands, item_count, bound_of, MarkedIn, Gathers};

    // Whether the event is a frame event. One that is not there is none.
    fn is_frame(&self, event: usize) -> bool
        ensures { event < length self.now.rows.now → result ≡ is_framed (rows_of self.now) event }
    {
        self.rows.get(event).is_some_and(|row| row.mark.is_frame())
    }

    /// Whether the opening is a frame event, and each gap begins and ends at an event that is there.
    pub fn stands(&self) -> bool
        ensures { result ≡ stands self.now }
    {
        let events = self.rows.len();
        self.is_frame(0)
            && self
                .gaps
                .iter()
                .all(|gap| gap.from < events && gap.to < events)
    }

    /// How many items there are.
    pub fn item_count(&self) -> usize
        ensures { result ≡ item_count self.now }
    {
        self.gaps.len() + 2 * (self.rows.len() - 1)
    }

    /// m * (r + 1) for m frame events and r free ones: no chain of more items reads less, unless there is no timetable.
    pub fn bound(&self) -> usize
        ensures is { result ≡ bound_of self.now }
        ensures few { result ≤ most_loop }
    {
        let frames = frames(self.rows);
        let free = self.rows.len() - frames;
        frames * (free + 1)
    }

    /// The level of each event: 1 for a frame event, 0 for a free one.
    pub fn levels(&self) -> [u8; EVENTS]
        ensures { take (length self.now.rows.now) result ≡ levels_of (rows_of self.now) }
    {
        array::from_fn(|event| u8::from(self.is_frame(event)))
    }

    // The item of the gap, by this code.
    fn item(&self, gap: &Gap, code: u16) -> Item
        ensures same { item_of result ≡ gap_item code (gap_of gap.now) }
        ensures marked { joins (length self.now.rows.now) (gap_of gap.now) ≡ true → MarkedIn self.now result }
    {
        Item {
            from: gap.from,
            to: gap.to,
            weight: gap.width,
            period: self.period,
            framed: self.is_frame(gap.to),
            code,
        }
    }

    // The event of this row comes no sooner than its earliest time: a gap from it to the opening.
    fn not_before(&self, event: usize, row: &Row) -> Item
        requires { event < length self.now.rows.now }
        ensures same { item_of result ≡ not_before event (row_of row.now) }
        ensures marked { MarkedIn self.now result }
    {
        let gap = Gap {
            from: event,
            to: 0,
            width: -row.window.earliest,
        };
        self.item(&gap, NOT_BEFORE + event as u16)
    }

    // The event of this row comes no later than its latest time: a gap from the opening to it.
    fn not_after(&self, event: usize, row: &Row) -> Item
        requires { event < length self.now.rows.now }
        ensures same { item_of result ≡ not_after event (row_of row.now) }
        ensures marked { MarkedIn self.now result }
    {
        let gap = Gap {
            from: 0,
            to: event,
            width: row.window.latest,
        };
        self.item(&gap, NOT_AFTER + event as u16)
    }

    // Writes the items of the gaps.
    fn write_gaps(&self, items: &mut [Item])
        requires { length items.old ≡ length self.now.gaps.now }
        ensures same { map item_of items.new ≡ gap_items 0 (gaps_of self.now) }
        ensures marked { all_join (length self.now.rows.now) (gaps_of self.now) ≡ true → All (MarkedIn self.now) items.new }
    {
        for (number, gap) in self.gaps.iter().enumerate() {
            // By index: in a loop over `items.iter_mut()` no invariant can speak of `items`.
            items[number] = self.item(gap, number as u16);
        }
    }

    // Writes the two window edges of each event but the opening.
    fn write_edges(&self, items: &mut [Item])
        requires { length items.old ≡ 2 * (length self.now.rows.now - 1) }
        ensures same { map item_of items.new ≡ edge_items 1 (drop 1 (rows_of self.now)) }
        ensures marked { All (MarkedIn self.now) items.new }
    {
        for (place, row) in self.rows[1..].iter().enumerate() {
            // By index, as the gaps; so it is with chunks of two.
            items[2 * place] = self.not_before(place + 1, row);
            items[2 * place + 1] = self.not_after(place + 1, row);
        }
    }

    /// Writes all items.
    pub fn gather(&self, items: &mut [Item])
        requires { length items.old ≡ item_count self.now }
        ensures { Gathers self.now items.new }
    {
        let (gaps, edges) = items.split_at_mut(self.gaps.len());
        self.write_gaps(gaps);
        self.write_edges(edges);
    }
}
