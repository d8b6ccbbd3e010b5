//! The limits of a plan; specs/Limits.antt has the same numbers for the contracts.
use search::limits;

/// Events of a plan, the opening among them.
pub const EVENTS: usize = limits::EVENTS;

/// Gaps of a plan.
pub const GAPS: usize = 400;

/// Bytes of a name.
pub const NAME: usize = 16;

/// The longest period of the frames, in ticks.
pub const PERIOD: i64 = 1_000_000;

/// The longest scan, in ticks.
pub const LENGTH: i64 = 1_000_000_000;

/// The widest gap, in ticks; the narrowest is its negative.
pub const WIDTH: i64 = 1_000_000_000;

/// Items of a plan: its gaps, and two window edges for each event but the opening.
pub const ITEMS: usize = GAPS + 2 * (EVENTS - 1);

/// Items of a loop that is handed over: m frame events and r free ones, m + r at most 40, make m * (r + 1) at most 420.
pub const LOOP: usize = 420;

// Codes, and no enum of items: the rules fix what a loop record holds.

/// The code of the not-before edge of event j is this and j.
pub const NOT_BEFORE: u16 = 1000;

/// The code of the not-after edge of event j is this and j.
pub const NOT_AFTER: u16 = 2000;
