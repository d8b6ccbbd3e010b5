//! The latest timetable of a plan, or a loop that shows that there is none.
#![tactic(auto)]

mod found;
mod problem;
mod solver;

pub use found::{Found, Loop};
pub use solver::solve;
