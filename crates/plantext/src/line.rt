//! What a line says.
ghost use Rattle.std.specs.Prelude.{◌≡◌};
ghost use Rattle.plantext.specs.Faults.{layer_of, TextFaults};

use crate::fault::{LineFault, TextFault};
use book::Mark;
use text::{first_field, four, read_number, three, two};

/// A line that is well formed; its names are not looked up yet.
#[derive(Clone, Copy)]
pub enum Line<'a> {
    Scan {
        period: i64,
        length: i64,
    },
    Event {
        name: &'a [u8],
        mark: Mark,
        earliest: i64,
        latest: i64,
    },
    Gap {
        from: &'a [u8],
        to: &'a [u8],
        width: i64,
    },
}

// A line has other than so many fields.
fn field_count() -> LineFault
    ensures { layer_of result.cause ≡ 1 }
{
    LineFault::text(0, TextFault::FieldCount)
}

// The number that stands in this field.
fn number_in(text: &[u8], field: usize) -> Result<i64, LineFault>
    ensures { TextFaults result }
{
    read_number(text).ok_or_else(|| LineFault::text(field, TextFault::BadNumber))
}

// The mark that stands in this field.
fn mark_in(text: &[u8], field: usize) -> Result<Mark, LineFault>
    ensures { TextFaults result }
{
    match text {
        b"frame" => Ok(Mark::Frame),
        b"free" => Ok(Mark::Free),
        _ => Err(LineFault::text(field, TextFault::MarkWord)),
    }
}

fn read_scan<'a>(left: Option<&'a [u8]>) -> Result<Line<'a>, LineFault>
    ensures { TextFaults result }
{
    let (period, length) = two(left).ok_or_else(field_count)?;
    let period = number_in(period, 2)?;
    let length = number_in(length, 3)?;
    Ok(Line::Scan { period, length })
}

fn read_event<'a>(left: Option<&'a [u8]>) -> Result<Line<'a>, LineFault>
    ensures { TextFaults result }
{
    let (name, mark, earliest, latest) = four(left).ok_or_else(field_count)?;
    let earliest = number_in(earliest, 4)?;
    let latest = number_in(latest, 5)?;
    let mark = mark_in(mark, 3)?;
    Ok(Line::Event {
        name,
        mark,
        earliest,
        latest,
    })
}

fn read_gap<'a>(left: Option<&'a [u8]>) -> Result<Line<'a>, LineFault>
    ensures { TextFaults result }
{
    let (from, to, width) = three(left).ok_or_else(field_count)?;
    let width = number_in(width, 4)?;
    Ok(Line::Gap { from, to, width })
}

/// What the line says. The first line of a text has to be its scan line, and no other may be one.
pub fn read_line<'a>(line: &'a [u8], first: bool) -> Result<Line<'a>, LineFault>
    ensures { TextFaults result }
{
    let (word, left) = first_field(line);
    match (word, first) {
        (b"scan", true) => read_scan(left),
        (b"event", false) => read_event(left),
        (b"gap", false) => read_gap(left),
        _ => Err(LineFault::text(1, TextFault::FirstWord)),
    }
}
