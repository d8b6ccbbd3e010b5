//! Reads a plan text on standard input and prints its timetable, or its fault, on standard output. The status is 0
//! where there is a timetable, and 1 where there is none.
#![tactic(auto)]

mod run;
#[cfg(test)]
mod tests;

use plantext::limits::{PRINT, TEXT};
use run::{Printed, run};
use std::io::{Read, Write};
use std::process::ExitCode;

// Standard input, up to one byte more than a text may have.
fn read_input(rt: &HostRuntime) -> anyhow::Result<Vec<u8>> {
    let mut text = Vec::new(rt.alloc());
    rt.stdin().take(TEXT as u64 + 1).read_to_end(&mut text)?;
    Ok(text)
}

fn answer(rt: &HostRuntime) -> anyhow::Result<Printed> {
    let text = read_input(rt)?;
    // An array, with the length in what `run` answers: printing asks for no memory.
    let mut out = [0u8; PRINT];
    let printed = run(rt.alloc(), text.as_slice(), &mut out)?;
    let (Printed::Timetable(length) | Printed::Fault(length)) = printed;
    rt.stdout().write_all(&out[0..length.min(PRINT)])?;
    Ok(printed)
}

fn main(rt: HostRuntime) -> anyhow::Result<ExitCode> {
    match answer(&rt)? {
        Printed::Timetable(_) => Ok(ExitCode::SUCCESS),
        Printed::Fault(_) => Ok(ExitCode::FAILURE),
    }
}
