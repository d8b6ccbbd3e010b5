//! What is read along a chain.

/// The time carried along a chain, in ticks.
#[derive(Clone, Copy, Debug, PartialEq, Eq, PartialOrd, Ord)]
pub struct CarriedTime(pub i64);

/// How many gaps a chain has.
#[derive(Clone, Copy, Debug, PartialEq, Eq, PartialOrd, Ord)]
pub struct GapCount(pub usize);

/// Whether some gap of a chain leads to a frame event.
#[derive(Clone, Copy, Debug, PartialEq, Eq)]
pub struct Framed(pub bool);
