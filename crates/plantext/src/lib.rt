//! Loads a plan text, and prints a released scan or a load fault.
#![tactic(auto)]

mod fault;
pub mod limits;
mod line;
mod loading;
mod print;

pub use fault::{Cause, Fault, LoadError, TextFault};
pub use loading::load;
pub use print::{ShortBuffer, print_fault, print_scan};
