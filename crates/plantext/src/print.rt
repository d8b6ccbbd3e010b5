//! Prints a released scan, or a fault, into the caller's buffer.
ghost use Rattle.plantext.specs.Printing.{FitsOrStays};

use crate::fault::{Cause, Fault};
use planner::{Closing, Released};
use text::Cursor;
use timetable::Loop;

/// Why nothing is printed: the buffer is shorter than the text.
#[derive(Clone, Copy, Debug, PartialEq, Eq)]
pub struct ShortBuffer;

impl ShortBuffer {
    /// The number by which the rules call it, as they do each refusal.
    pub const NUMBER: u16 = 66;
}

// The lines are put by hand, and not by `Display`: what that writes is promised only where `fmt` succeeds, and nobody can
// show that it does. A print could then not promise its text or its length.

fn put_time(to: &mut Cursor<'_>, name: &[u8], time: i64) {
    to.bytes(b"time,");
    to.bytes(name);
    to.bytes(b",");
    to.number(time);
    to.bytes(b"\n");
}

fn put_depth(to: &mut Cursor<'_>, depth: usize) {
    to.bytes(b"depth,");
    to.number(depth);
    to.bytes(b"\n");
}

fn put_header(to: &mut Cursor<'_>, closing: Closing, tick: u64) {
    to.bytes(b"header,");
    to.number(closing.planned);
    to.bytes(b",");
    to.number(closing.reached);
    to.bytes(b",");
    to.number(tick);
    to.bytes(b"\n");
}

// The lines of a scan.
fn put_scan(to: &mut Cursor<'_>, scan: &Released, tick: u64) {
    let view = scan.view();
    for (row, time) in view.rows.iter().zip(view.times) {
        put_time(to, row.name.as_bytes(), *time);
    }
    put_depth(to, view.depth);
    put_header(to, scan.counts(tick), tick);
}

// The loop line; nothing for an empty loop.
fn put_loop(to: &mut Cursor<'_>, found: &Loop) {
    let codes = found.as_slice();
    if codes.is_empty() {
        return;
    }
    to.bytes(b"loop");
    for code in codes {
        to.bytes(b",");
        to.number(*code);
    }
    to.bytes(b"\n");
}

// The lines of a fault.
fn put_fault(to: &mut Cursor<'_>, fault: &Fault) {
    to.bytes(b"fault,");
    to.number(fault.cause.layer());
    to.bytes(b",");
    to.number(fault.line);
    to.bytes(b",");
    to.number(fault.field);
    to.bytes(b",");
    to.number(fault.cause.number());
    to.bytes(b"\n");
    if let Cause::Plan(refusal) = &fault.cause {
        put_loop(to, &refusal.reducing_loop());
    }
}

// Runs `put` on nothing, for the length, and then on the buffer, if that is long enough.
fn print<F: Fn(&mut Cursor<'_>)>(out: &mut [u8], put: F) -> Result<usize, ShortBuffer>
    requires { F.IsAlwaysCallable put }
    ensures { FitsOrStays out.old result out.new }
{
    let mut length = Cursor {
        out: &mut [],
        at: 0,
    };
    put(&mut length);
    if length.at > out.len() {
        return Err(ShortBuffer);
    }
    put(&mut Cursor { out, at: 0 });
    Ok(length.at)
}

/// Prints the times, the depth, and the header with what closing at this tick would answer; answers the length.
/// A buffer that is too short stays as it was.
pub fn print_scan(scan: &Released, tick: u64, out: &mut [u8]) -> Result<usize, ShortBuffer>
    ensures { FitsOrStays out.old result out.new }
{
    print(out, |to| put_scan(to, scan, tick))
}

/// Prints the fault, and its loop where it has one; answers the length. A buffer that is too short stays as it was.
pub fn print_fault(fault: &Fault, out: &mut [u8]) -> Result<usize, ShortBuffer>
    ensures { FitsOrStays out.old result out.new }
{
    print(out, |to| put_fault(to, fault))
}
