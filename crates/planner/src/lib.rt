//! A plan and its calls.
#![tactic(auto)]

mod plan;
mod refusal;

pub use plan::{Closing, Plan, Released, View};
pub use refusal::Refusal;
