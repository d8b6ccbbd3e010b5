//! The limits of what is read and put.

/// Digits of a number.
pub const DIGITS: usize = 10;
