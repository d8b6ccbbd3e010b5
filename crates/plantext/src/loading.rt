//! Loads a plan text: make, and then the calls of its lines in their order.
ghost use Rattle.std.specs.Prelude.{◌≡◌, OnErr};
ghost use Rattle.plantext.specs.Faults.{TextFaults};

use crate::fault::{Fault, LineFault, LoadError, TextFault};
use crate::limits::TEXT;
use crate::line::{Line, read_line};
use planner::Plan;
use std::alloc::Global;
use text::Reader;

// The number of the last line, ended or not; 1 in an empty text.
fn last_line(text: &[u8]) -> usize {
    Reader::new(text).count().saturating_add(1)
}

// A text is not too long, and its last line is ended.
fn check_whole(text: &[u8]) -> Result<(), Fault> {
    if text.len() > TEXT {
        return Err(LineFault::text(0, TextFault::TooLong).on_line(0));
    }
    if text.last() != Some(&b'\n') {
        return Err(LineFault::text(0, TextFault::Unended).on_line(last_line(text)));
    }
    Ok(())
}

// The event that this field names.
fn named(plan: &Plan, name: &[u8], field: usize) -> Result<usize, LineFault>
    ensures { TextFaults result }
{
    plan.number_of(name)
        .ok_or_else(|| LineFault::text(field, TextFault::UnknownName))
}

// Makes the call that the line describes.
fn enter(plan: &mut Plan, line: Line<'_>) -> Result<(), LineFault> {
    match line {
        Line::Scan { period, length } => {
            plan.make(period, length)?;
        }
        Line::Event {
            name,
            mark,
            earliest,
            latest,
        } => {
            plan.event(name, mark, earliest, latest)?;
        }
        Line::Gap { from, to, width } => {
            let from = named(plan, from, 2)?;
            let to = named(plan, to, 3)?;
            plan.gap(from, to, width)?;
        }
    }
    Ok(())
}

// Reads the line and makes its call.
fn take_line(plan: &mut Plan, line: &[u8], first: bool) -> Result<(), LineFault> {
    let read = read_line(line, first)?;
    enter(plan, read)
}

// Makes the calls of all lines.
fn take_lines(plan: &mut Plan, text: &[u8]) -> Result<(), Fault> {
    let mut reader = Reader::new(text);
    // By `while let`: the numbers of the lines are the reader's own, and a `for` would take the reader away.
    while let Some((line, _rest)) = reader.next() {
        take_line(plan, line.bytes, reader.line == 1).map_err(|fault| fault.on_line(reader.line))?;
    }
    Ok(())
}

/// Turns `plan` into what the text describes. Where there is a fault or no memory, `plan` stays as it was.
pub fn load(heap: Global, plan: &mut Plan, text: &[u8]) -> Result<(), LoadError>
    ensures { OnErr result (plan.new ≡ plan.old) }
{
    check_whole(text)?;
    let mut fresh = Plan::fresh(heap)?;
    take_lines(&mut fresh, text)?;
    *plan = fresh;
    Ok(())
}
