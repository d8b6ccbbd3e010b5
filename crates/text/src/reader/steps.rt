//! The steps of a reader.
ghost use Rattle.std.specs.Prelude.{◌≡◌};
ghost use Rattle.std.specs.Iterator.{item_count};
ghost use Rattle.text.specs.Reads.{unread, TakesLine};

use super::Reader;
use crate::part::{Part, find};

/// The byte that ends a line.
const LINE_END: u8 = b'\n';

impl<'a> Reader<'a> {
    /// A reader that has read nothing of `text` yet.
    pub fn new(text: &'a [u8]) -> Reader<'a>
        ensures whole { result.text.now ≡ text.now }
        ensures start { result.cursor ≡ 0 }
        ensures first { result.line ≡ 0 }
        ensures all { unread result ≡ text.now }
    {
        Reader {
            text,
            cursor: 0,
            line: 0,
        }
    }
}

impl<'a> Iterator for Reader<'a> {
    type Item = (Part<'a>, Part<'a>);

    ghost next_gives = { TakesLine };

    ghost remaining = { item_count unread };

    /// Takes the next line, and answers it without its end, with the unread rest behind it.
    /// Where no line is ended any more it answers `None`, and nothing moves.
    fn next(&mut self) -> Option<(Part<'a>, Part<'a>)> {
        let left = &self.text[self.cursor..];
        let n = find(left, LINE_END)?;
        let line = Part {
            bytes: &left[..n],
            at: self.cursor,
        };
        self.cursor += n + 1;
        self.line += 1;
        let rest = Part {
            bytes: &left[n + 1..],
            at: self.cursor,
        };
        Some((line, rest))
    }
}
