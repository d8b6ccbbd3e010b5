//! Loops of items that no timetable keeps: the way back from a change that comes too late, and the loop on it.
#![tactic(auto)]

mod trace;

pub use trace::loop_behind;
