//! The whole job on a text in memory.
use planner::Plan;
use plantext::{LoadError, ShortBuffer, load, print_fault, print_scan};
use std::alloc::{AllocError, Global};
use thiserror::Error;

/// What was printed: so many bytes of a timetable, or of a fault.
// Both are successes; as a `Result` a fault that was printed would be an error.
#[derive(Clone, Copy, Debug, PartialEq, Eq)]
pub enum Printed {
    Timetable(usize),
    Fault(usize),
}

/// Why nothing was printed.
#[derive(Clone, Copy, Debug, Error)]
pub enum Trouble {
    #[error("no memory for the plan")]
    Memory,
    #[error("no room to print")]
    ShortBuffer(#[from] ShortBuffer),
}

// By hand: want of memory comes from a load too, which hands over no value that a derive could take.
impl From<AllocError> for Trouble {
    fn from(_e: AllocError) -> Trouble {
        Trouble::Memory
    }
}

// Releases the plan, prints it at its length, and closes it there.
fn print_released(plan: Plan, out: &mut [u8]) -> Result<usize, ShortBuffer> {
    let scan = plan.release();
    let tick = scan.view().length as u64;
    let printed = print_scan(&scan, tick, out);
    let _ = scan.close(tick);
    printed
}

/// Loads the text, and prints its timetable or its fault into `out`.
pub fn run(heap: Global, text: &[u8], out: &mut [u8]) -> Result<Printed, Trouble> {
    let mut plan = Plan::fresh(heap)?;
    match load(heap, &mut plan, text) {
        Ok(()) => Ok(Printed::Timetable(print_released(plan, out)?)),
        Err(LoadError::Fault(fault)) => Ok(Printed::Fault(print_fault(&fault, out)?)),
        Err(LoadError::Memory) => Err(Trouble::Memory),
    }
}
