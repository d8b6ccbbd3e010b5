//! What the solver answers: a timetable with its depth, or a loop.
ghost use Rattle.std.specs.Prelude.{◌≡◌, ℕ, ◌<◌, ◌≤◌, map, length, take, ℤ, pos, slice_index, slice_index_or};
ghost use Rattle.search.specs.declared.item.Item.{Item as Searched};
ghost use Rattle.search.specs.Rounds.{row_of as reading_of};
ghost use Rattle.loops.specs.Loops.{picked, time_at};
ghost use Rattle.loops.specs.Walks.{Known};
ghost use Rattle.book.specs.Limits.{most_events, most_loop};

use book::limits::{EVENTS, LOOP};
use search::{CarriedTime, Item};
use std::array;

/// The latest time of each event by number, 0 beyond the last, and the depth.
// An array and no list: the solver promises 0 beyond the last event, and answers by value.
#[derive(Clone, Copy, Debug, PartialEq, Eq)]
pub struct Found {
    pub depth: usize,
    pub times: [i64; EVENTS],
    ghost wide: { length times ≡ most_events },
}

/// The loop record: so many codes of items, in their order along the loop, and 0 beyond them.
// The rules want it so: a count, and room for the longest loop.
#[derive(Clone, Copy, Debug, PartialEq, Eq)]
pub struct Loop {
    pub count: usize,
    pub codes: [u16; LOOP],
    ghost fits: { count ≤ most_loop },
    ghost blank: { (k : ℕ) → count ≤ k → slice_index codes k ≡ 0 },
}

// The time of a reading, 0 where there is none.
fn time_of(reading: Option<CarriedTime>) -> i64
    ensures { result ≡ time_at reading }
{
    reading.map_or(0, |time| time.0)
}

// The code of the item at place k of the path, 0 beyond its end.
fn code_at(items: &[Item], path: &[u16], k: usize) -> u16
    requires { Known items.now path.now }
    ensures code { k < length path.now → result ≡ slice_index (map (λ (i : Searched). i.code) (picked items.now path.now)) k }
    ensures past { length path.now ≤ k → result ≡ 0 }
{
    // Written out: with `map_or` the answer stays open.
    match path.get(k) {
        Some(&number) => items[usize::from(number)].code,
        None => 0,
    }
}

impl Found {
    /// The times of a layer, with the depth.
    pub(crate) fn new(depth: usize, layer: &[Option<CarriedTime>; EVENTS]) -> Found
        ensures depth { result.depth ≡ depth }
        ensures times { (v : ℕ) → slice_index_or result.times v (pos 0) ≡ time_at (reading_of layer.now v) }
    {
        Found {
            depth,
            times: layer.map(time_of),
        }
    }
}

impl Loop {
    ghost use Rattle.timetable.specs.Records.{codes_of};

    pub fn empty() -> Loop
        ensures { result.count ≡ 0 }
    {
        Loop {
            count: 0,
            codes: [0; LOOP],
        }
    }

    /// The codes that it has.
    pub fn as_slice(&self) -> &[u16]
        ensures { result.now ≡ codes_of self.now }
    {
        &self.codes[..self.count]
    }

    /// The codes of the path's items.
    pub(crate) fn new(items: &[Item], path: &[u16]) -> Loop
        requires known { Known items.now path.now }
        requires short { length path.now ≤ most_loop }
        ensures count { result.count ≡ length path.now }
        ensures codes { codes_of result ≡ map (λ (i : Searched). i.code) (picked items.now path.now) }
    {
        Loop {
            count: path.len(),
            codes: array::from_fn(|k| code_at(items, path, k)),
        }
    }
}
