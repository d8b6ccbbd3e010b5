//! A plan: what was asked of it, and its latest timetable.
ghost use Rattle.std.specs.Prelude.{◌≡◌, true, length};
ghost use Rattle.book.specs.Book.{opens, all_join};
ghost use Rattle.book.specs.Held.{book_of};

use book::Table;
use timetable::Found;

#[derive(Drop)]
pub struct Plan {
    table: Table,
    found: Found,
    // The opening is a frame event.
    ghost framed_opening: { opens (book_of table).rows ≡ true },
    // Each gap begins and ends at one of the events.
    ghost joined: { all_join (length (book_of table).rows) (book_of table).gaps ≡ true },
}

mod calls;
mod released;

pub use released::{Closing, Released, View};
