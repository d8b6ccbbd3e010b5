//! Prints into the caller's buffer, with no heap.
//!
//! A text is printed twice: first into an empty buffer, where the place that is reached is its length, and then into the
//! caller's, if it is long enough.
ghost use Rattle.std.specs.Prelude.{decimal};
ghost use Rattle.std.specs.Fmt.{signed_decimal};
ghost use Rattle.text.specs.Put.{PrintsWhole, PrintsAt};

use itoa::{Buffer, Integer};

// The three public functions take a buffer and a place, as they did; a `Cursor` holds both.

/// Answers the place behind `bytes` at `at`, and writes them there if they fit.
pub fn put_bytes(out: &mut [u8], at: usize, bytes: &[u8]) -> usize
    ensures { PrintsWhole out.old at bytes.now result out.new }
{
    let end = at.saturating_add(bytes.len());
    if end <= out.len() {
        out[at..end].copy_from_slice(bytes);
    }
    end
}

// As `put_bytes`, with the decimal digits of `n`, and a `-` before them where it is negative.
fn put_number<I: Integer>(out: &mut [u8], at: usize, n: I) -> usize
    ensures { PrintsWhole out.old at (I.text n) result out.new }
{
    put_bytes(out, at, Buffer::new().format(n).as_bytes())
}

/// As `put_bytes`, with the decimal digits of `n`.
pub fn put_natural(out: &mut [u8], at: usize, n: u64) -> usize
    ensures { PrintsWhole out.old at (decimal n) result out.new }
{
    put_number(out, at, n)
}

/// As `put_bytes`, with the decimal digits of `z`, and a `-` before them where it is negative.
pub fn put_integer(out: &mut [u8], at: usize, z: i64) -> usize
    ensures { PrintsWhole out.old at (signed_decimal z) result out.new }
{
    put_number(out, at, z)
}

/// A place in a buffer: what is put there is printed, and the place moves on behind it.
#[derive(Drop)]
pub struct Cursor<'a> {
    pub out: &'a mut [u8],
    pub at: usize,
}

impl<'a> Cursor<'a> {
    /// As the function `put_bytes`.
    pub fn bytes(&mut self, bytes: &[u8])
        ensures { PrintsAt self.old bytes.now self.new }
    {
        self.at = put_bytes(self.out, self.at, bytes);
    }

    /// As the functions `put_natural` and `put_integer`, with any number.
    pub fn number<I: Integer>(&mut self, n: I)
        ensures { PrintsAt self.old (I.text n) self.new }
    {
        self.at = put_number(self.out, self.at, n);
    }
}
