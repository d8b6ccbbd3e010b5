//! The limits of a plan text.

/// Bytes of a text.
pub const TEXT: usize = 32_768;

/// Room for all that is ever printed: a time line for each of 40 events, or a loop line of 420 codes.
pub const PRINT: usize = 4096;
