//! The latest timetable of a plan, or a loop that shows that there is none.
ghost use Rattle.std.specs.Prelude.{◌≡◌, ◌<◌, ◌≤◌, true, map, length, ℤ};
ghost use Rattle.loops.specs.Walks.{Ran};
ghost use Rattle.book.specs.Book.{opens, all_join};
ghost use Rattle.book.specs.Held.{row_of, gap_of, held};
ghost use Rattle.book.specs.Limits.{most_events, most_gaps};
ghost use Rattle.timetable.specs.Problem.{book_of, stands, item_count, bound_of, Gathers};
ghost use Rattle.timetable.specs.Records.{codes_of};
ghost use Rattle.timetable.specs.Solved.{Refused, Answers};

use crate::found::{Found, Loop};
use crate::problem::Problem;
use book::limits::{EVENTS, ITEMS, LOOP};
use book::{Gap, Row};
use loops::loop_behind;
use search::{CarriedTime, Causes, Item, Period, search};

// The loop behind a change in the last round that there is room for; the empty one where the problem does not stand.
// `path` is memory to work in.
fn refuse(
    problem: &Problem,
    items: &[Item],
    causes: &[Causes],
    last: usize,
    path: &mut [u16],
) -> Loop
    requires gathered { Gathers problem.now items.now }
    requires run { Ran items.now causes.now last }
    requires full { length causes.now ≡ bound_of problem.now }
    requires long { length path.old ≡ bound_of problem.now }
    ensures { stands problem.now ≡ true → (h : ℤ) → Refused (book_of problem.now h) (codes_of result) }
{
    if !problem.stands() {
        return Loop::empty();
    }
    let levels = problem.levels();
    let part = loop_behind(items, &levels[..problem.rows.len()], causes, last, path);
    Loop::new(items, &path[part])
}

// `items`, `causes` and `path` are memory to work in, just as long as the problem needs: three parameters, since some
// are read while others are written, and their lengths hang on the problem.
fn settle(
    problem: &Problem,
    items: &mut [Item],
    causes: &mut [Causes],
    path: &mut [u16],
) -> Result<Found, Loop>
    requires items { length items.old ≡ item_count problem.now }
    requires causes { length causes.old ≡ bound_of problem.now }
    requires path { length path.old ≡ bound_of problem.now }
    ensures { stands problem.now ≡ true → (h : ℤ) → Answers (book_of problem.now h) result }
{
    problem.gather(items);
    let mut layer = [None; EVENTS];
    let mut next = [None; EVENTS];
    match search::<CarriedTime>(items, 0, &mut layer, &mut next, causes) {
        Ok(rounds) => Ok(Found::new(rounds.made, &layer)),
        Err(unsettled) => Err(refuse(problem, items, causes, unsettled.last, path)),
    }
}

/// The latest timetable and the depth of the plan of these rows and gaps, or a reducing loop where there is no
/// timetable; the plan's length plays no part. This holds of rows whose opening is a frame event, and of gaps that
/// begin and end at these rows; of others nothing is promised. It asks for no heap.
pub fn solve(period: Period, rows: &[Row], gaps: &[Gap]) -> Result<Found, Loop>
    requires rows { (0 < length rows.now) × (length rows.now ≤ most_events) }
    requires gaps { length gaps.now ≤ most_gaps }
    ensures { opens (map row_of rows.now) ≡ true → all_join (length rows.now) (map gap_of gaps.now) ≡ true → (h : ℤ) → Answers (held period.ticks h rows.now gaps.now) result }
{
    let problem = Problem { period, rows, gaps };
    let blank = Item {
        from: 0,
        to: 0,
        weight: 0,
        period,
        framed: false,
        code: 0,
    };
    // Arrays of fixed size, since no heap is asked for; each is lent as just the part that is needed.
    let mut items = [blank; ITEMS];
    let mut causes = [[None; EVENTS]; LOOP];
    let mut path = [0u16; LOOP];
    let count = problem.item_count();
    let bound = problem.bound();
    settle(
        &problem,
        &mut items[..count],
        &mut causes[..bound],
        &mut path[..bound],
    )
}
