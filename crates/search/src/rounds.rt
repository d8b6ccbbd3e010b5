//! The least readings of chains, by rounds. In a round each item is tried once, from the readings that the round
//! before left: so after n rounds each event has the least reading of chains of up to n items.
ghost use Rattle.std.specs.Prelude.{◌≡◌, ℕ, ◌<◌, ◌≤◌, length, replicate, Some, None, true, false, MatchBool, MatchResult, slice_set};
ghost use Rattle.search.specs.Limits.{most_events, most_rounds, most_items};
ghost use Rattle.search.specs.Rounds.{AtMost, Before, lift, row_of, Steppable, Passed, Sought};

use crate::item::Item;
use crate::limits::EVENTS;
use crate::reading::Reading;

/// Of one round, for each event: the number of the item that brought a change there.
// Numbers and no references: the causes of all rounds lie on the stack.
pub type Causes = [Option<u16>; EVENTS];

// Why each event changed in a round, and the event that changed last.
#[derive(Clone, Copy)]
struct Made {
    why: Causes,
    changed: Option<usize>,
}

/// How a search ended where a round changed nothing: the rounds that did before it, and the event that changed last.
#[derive(Clone, Copy, Debug, PartialEq, Eq)]
pub struct Rounds {
    pub made: usize,
    pub last: usize,
}

/// How a search ended where each round that there was room for changed something: the event that changed last.
#[derive(Clone, Copy, Debug, PartialEq, Eq)]
pub struct Unsettled {
    pub last: usize,
}

// What the item makes of the reading where it begins.
fn offer<R: Reading>(item: &Item, held: Option<R>) -> Option<R>
    requires { (v : R) → held ≡ Some v → (k : ℕ) × (k < most_rounds) × R.reached k v }
    ensures { result ≡ lift R.kind item.now held }
{
    Some(held?.step(item))
}

// Strictly before, where no reading is after every reading; Option's own order would put it before every one.
fn first_of<R: Reading>(a: Option<R>, b: Option<R>) -> bool
    ensures { MatchBool result (Before R.kind a b) (AtMost R.kind b a) }
{
    match (a, b) {
        (None, _) => false,
        (Some(_), None) => true,
        (Some(x), Some(y)) => x.before(y),
    }
}

// Puts what is offered at the item's end, if it comes first.
fn bring<R: Reading>(item: &Item, offered: Option<R>, next: &mut [Option<R>]) -> bool
    requires ends { item.now.to < length next.old }
    ensures { MatchBool result
        (Before R.kind offered (row_of next.old item.now.to) × (next.new ≡ slice_set next.old item.now.to offered))
        (AtMost R.kind (row_of next.old item.now.to) offered × (next.new ≡ next.old)) }
{
    if first_of(offered, next[item.to]) {
        next[item.to] = offered;
        return true;
    }
    false
}

// One round: `next` gets what the items make of `layer`. Both are slices and no arrays, which `search` would have to ask
// its callers for.
fn round<R: Reading>(items: &[Item], layer: &[Option<R>], next: &mut [Option<R>]) -> Made
    requires few { length items.now ≤ most_items }
    requires wide { (length layer.now ≡ most_events) × (length next.old ≡ most_events) }
    requires steppable { Steppable R.reached (row_of layer.now) }
    ensures { Passed R.kind items.now items.now (row_of layer.now) next.new result.why result.changed }
{
    next.copy_from_slice(layer);
    let mut why = [None; EVENTS];
    let mut changed = None;
    for (number, item) in items.iter().enumerate() {
        let offered = offer(item, layer[item.from]);
        if bring(item, offered, next) {
            why[item.to] = Some(number as u16);
            changed = Some(item.to);
        }
    }
    Made { why, changed }
}

// Before any round: a reading at the start alone.
fn open<R: Reading>(start: usize, layer: &mut [Option<R>])
    requires begins { start < length layer.old }
    ensures { layer.new ≡ slice_set (replicate (length layer.old) None) start (Some R.kind.first) }
{
    layer.fill(None);
    layer[start] = Some(R::start());
}

/// Rounds until one changes nothing, but no more than `causes` has rows: an error where none of these was such a one.
/// `layer` gets for each event the least reading of chains from `start` of up to as many items as rounds were made; row
/// k of `causes` says which item brought each change of round k. `next` is memory to work in.
pub fn search<R: Reading>(
    items: &[Item],
    start: usize,
    layer: &mut [Option<R>],
    next: &mut [Option<R>],
    causes: &mut [Causes],
) -> Result<Rounds, Unsettled>
    requires few { length items.now ≤ most_items }
    requires begins { start < most_events }
    requires wide { (length layer.old ≡ most_events) × (length next.old ≡ most_events) }
    requires room { length causes.old ≤ most_rounds }
    ensures { MatchResult result
        (λ r. Sought R.kind items.now start (length causes.old) r.made true layer.new causes.new r.last)
        (λ u. Sought R.kind items.now start (length causes.old) (length causes.old) false layer.new causes.new u.last) }
{
    open(start, layer);
    let mut last = start;
    for (made, row) in causes.iter_mut().enumerate() {
        let Made { why, changed } = round(items, layer, next);
        let Some(event) = changed else {
            return Ok(Rounds { made, last });
        };
        *row = why;
        layer.copy_from_slice(next);
        last = event;
    }
    Err(Unsettled { last })
}
