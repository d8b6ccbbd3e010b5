//! The limits of a search that the code needs; specs/Limits.antt has them and the others for the contracts.

/// Events that one search tells apart.
pub const EVENTS: usize = 40;

/// The longest period, in ticks.
pub const PERIOD: i64 = 1_000_000_000;
