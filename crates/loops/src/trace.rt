//! The loop behind a change that comes too late.
ghost use Rattle.std.specs.Prelude.{◌≡◌, ℕ, ◌<◌, ◌≤◌, length, ℤ, slice_range};
ghost use Rattle.loops.specs.Levels.{room, Ordered, Periods, Steps, Keeps};
ghost use Rattle.loops.specs.Loops.{Reducing, picked};
ghost use Rattle.loops.specs.Walks.{Ran, Known, Path, Back, Found};

use search::{Causes, Item};
use std::ops::Range;

// The numbers of the items by which the event that changed last came to its reading, one a round, from the opening on.
fn walk(items: &[Item], causes: &[Causes], last: usize, path: &mut [u16])
    requires long { length path.old ≡ length causes.now }
    requires run { Ran items.now causes.now last }
    ensures { Path items.now path.new }
{
    let mut at = last;
    for (round, row) in causes.iter().enumerate().rev() {
        let number = row[at].unwrap();
        let item = items[number as usize];
        // By index: of a `path` that is zipped and walked from behind, only the length would be known.
        path[round] = number;
        at = item.from;
    }
}

// Items, with the level of each event that they lead from or to.
#[derive(Clone, Copy)]
struct Leveled<'a> {
    items: &'a [Item],
    levels: &'a [u8],
    ghost ordered: { Ordered levels.now items.now },
}

impl Leveled<'_> {
    // How many of the path's items lead back to where the first begins, with no event of a higher level on the way.
    fn back(&self, path: &[u16]) -> Option<usize>
        requires some { 0 < length path.now }
        // A clause and no type: `path` is a part of one that is being searched.
        requires known { Known self.now.items.now path.now }
        ensures { Back self.now.levels.now (picked self.now.items.now path.now) result }
    {
        let first = self.items[path[0] as usize];
        let level = self.levels[first.from];
        for (place, &number) in path.iter().enumerate() {
            let item = self.items[number as usize];
            if item.to == first.from {
                return Some(place + 1);
            }
            if self.levels[item.to] > level {
                return None;
            }
        }
        None
    }

    // The first loop on the path.
    fn find(&self, path: &[u16]) -> Range<usize>
        requires falls { Path self.now.items.now path.now }
        requires long { room self.now.levels.now ≤ length path.now }
        ensures { Found self.now.levels.now self.now.items.now path.now result.start result.end }
    {
        // A range: its number cuts the path. With `find_map` it stays open that its closure may be called.
        for start in 0..path.len() {
            if let Some(count) = self.back(&path[start..]) {
                return start..start + count;
            }
        }
        unreachable!()
    }
}

// `causes` and `last` are two parameters, which `Ran` ties to the items; these are read with `levels` too.

/// The reducing loop behind a change in the last round that there is room for: the range of a part of `path`, which gets
/// the numbers of the items on the way to that change. `levels` has the level of each event.
pub fn loop_behind(
    items: &[Item],
    levels: &[u8],
    causes: &[Causes],
    last: usize,
    path: &mut [u16],
) -> Range<usize>
    requires ordered { Ordered levels.now items.now }
    requires steps { (period : ℕ → ℤ) × Periods period × Steps period levels.now items.now }
    requires run { Ran items.now causes.now last }
    requires full { length causes.now ≡ room levels.now }
    requires long { length path.old ≡ length causes.now }
    ensures inside { (result.start ≤ result.end) × (result.end ≤ length path.new) }
    ensures known { Known items.now path.new }
    ensures reducing { Reducing levels.now items.now (picked items.now (slice_range path.new result.start result.end)) }
    ensures unkept { (period : ℕ → ℤ) → Periods period → Steps period levels.now items.now → (x : ℕ → ℤ) → Keeps period levels.now items.now x → ⊥ }
{
    walk(items, causes, last, path);
    Leveled { items, levels }.find(path)
}
