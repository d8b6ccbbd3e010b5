//! A reader that takes a text line by line.
ghost use Rattle.std.specs.Prelude.{◌≤◌, length};

/// How far `text` is read: `cursor` is the place of the first unread byte, and `line` counts the lines that were taken.
#[derive(Debug, Drop)]
pub struct Reader<'a> {
    pub text: &'a [u8],
    pub cursor: usize,
    pub line: usize,
    ghost within: { cursor ≤ length text.now },
    ghost counted: { line ≤ cursor },
}

pub mod steps;
