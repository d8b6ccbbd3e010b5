//! The numbers of a plan text.
ghost use Rattle.std.specs.Prelude.{◌≡◌, pos, IfSome};
ghost use Rattle.std.specs.Option.{option_map};
ghost use Rattle.text.specs.Number.{figures_of, value_of, Small};

use crate::limits::DIGITS;
use std::str::from_utf8;

/// The number that a digit 1 to 9 and up to nine digits more write.
fn figures(digits: &[u8]) -> Option<i64>
    ensures value { result ≡ option_map pos (figures_of digits.now) }
    ensures bound { IfSome result Small }
{
    match digits {
        [b'1'..=b'9', ..] if digits.len() <= DIGITS => from_utf8(digits).ok()?.parse().ok(),
        _ => None,
    }
}

/// The number that a field writes: `0`, or an optional `-`, a digit 1 to 9, and up to nine digits more.
pub fn read_number(field: &[u8]) -> Option<i64>
    ensures value { result ≡ value_of field.now }
    ensures bound { IfSome result (λ z. Small z) }
{
    if field == b"0".as_slice() {
        return Some(0);
    }
    match field.strip_prefix(b"-") {
        Some(digits) => Some(-figures(digits)?),
        None => figures(field),
    }
}
