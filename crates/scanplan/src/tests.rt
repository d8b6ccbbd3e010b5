//! What is printed for texts, as a table, and a loop read item by item.
use crate::run::{Printed, run};
use planner::Plan;
use plantext::limits::PRINT;
use plantext::{Cause, LoadError, load};
use std::alloc::Global;
use std::test::Fail;

// Whether the text gives a fault that is printed so.
fn gives(heap: Global, text: &[u8], lines: &[u8]) -> bool {
    let mut out = [0u8; PRINT];
    match run(heap, text, &mut out) {
        Ok(Printed::Fault(length)) => length <= PRINT && &out[0..length] == lines,
        _ => false,
    }
}

#[test]
fn faults_are_printed(rt: HostRuntime) {
    let heap = rt.alloc();
    let table: [(&[u8], &[u8]); 16] = [
        (b"", b"fault,1,1,0,71\n"),
        (b"scan,10,100", b"fault,1,1,0,71\n"),
        (b"scan,0,100\nevent,a", b"fault,1,2,0,71\n"),
        (b"event,a,free,0,5\n", b"fault,1,1,1,72\n"),
        (b"scan,10,100\nscan,10,100\n", b"fault,1,2,1,72\n"),
        (b"scan,10,100\n\n", b"fault,1,2,1,72\n"),
        (b"scan,10\n", b"fault,1,1,0,73\n"),
        (b"scan,010,-0\n", b"fault,1,1,2,74\n"),
        (b"scan,10,9999999999\n", b"fault,2,1,0,2\n"),
        (b"scan,0,100\n", b"fault,2,1,0,1\n"),
        (b"scan,10,100\nevent,a,loose,0,x\n", b"fault,1,2,5,74\n"),
        (b"scan,10,100\nevent,a,loose,0,5\n", b"fault,1,2,3,76\n"),
        (b"scan,10,100\nevent,a b,free,0,5\n", b"fault,2,2,0,11\n"),
        (b"scan,10,100\ngap,opening,b,x\n", b"fault,1,2,4,74\n"),
        (b"scan,10,100\ngap,opening,b,5\n", b"fault,1,2,3,75\n"),
        (
            b"scan,10,100\ngap,a,b,5\nevent,a,free,0,5\n",
            b"fault,1,2,2,75\n",
        ),
    ];
    for (text, lines) in table {
        assert!(rt; gives(heap, text, lines));
    }
}

#[test]
fn long_text_is_refused(rt: HostRuntime) -> Result<(), Fail> {
    let heap = rt.alloc();
    let text = vec![in heap; b'\n'; 32_769]?;
    assert!(rt; gives(heap, text.as_slice(), b"fault,1,0,0,70\n"));
    assert!(rt; gives(heap, &text.as_slice()[1..], b"fault,1,1,1,72\n"));
    Ok(())
}

// The plan whose last gap is refused: event 1 is `arm`, event 2 is `f1`.
const REFUSED: &[u8] =
    b"scan,10,100\nevent,arm,free,0,34\nevent,f1,frame,31,100\ngap,f1,arm,-3\ngap,arm,f1,5\n";

// Of its item with this code: from, to and weight.
fn item(code: u16) -> Option<(usize, usize, i64)> {
    match code {
        0 => Some((2, 1, -3)),
        1 => Some((1, 2, 5)),
        1001 => Some((1, 0, 0)),
        1002 => Some((2, 0, -31)),
        2001 => Some((0, 1, 34)),
        2002 => Some((0, 2, 100)),
        _ => None,
    }
}

// Reads the codes as a chain from `start`; nothing where they are no closed chain.
fn read(codes: &[u16], start: usize) -> Option<i64> {
    let mut at = start;
    let mut sum = 0i64;
    for code in codes {
        let (from, to, weight) = item(*code)?;
        if from != at {
            return None;
        }
        sum = sum.checked_add(weight)?;
        if to != 1 {
            sum = sum.checked_sub(sum.rem_euclid(10))?;
        }
        at = to;
    }
    if at == start { Some(sum) } else { None }
}

#[test]
fn refused_gap_has_a_reducing_loop(rt: HostRuntime) -> Result<(), Fail> {
    let heap = rt.alloc();
    let mut plan = Plan::fresh(heap)?;
    let Err(LoadError::Fault(fault)) = load(heap, &mut plan, REFUSED) else {
        return Err(Fail::new("loaded"));
    };
    assert_eq!(rt; fault.line, 5);
    assert_eq!(rt; fault.cause.number(), 24);
    let Cause::Plan(refusal) = fault.cause else {
        return Err(Fail::new("not the plan's"));
    };
    let found = refusal.reducing_loop();
    let codes = &found.codes[0..found.count];
    // It begins at the opening or at f1, which are the frame events.
    let sum = match read(codes, 0) {
        Some(sum) => sum,
        None => read(codes, 2).ok_or("no closed chain")?,
    };
    assert!(rt; found.count > 0 && sum < 0);
    // The plan that was given stays: the opening alone.
    assert_eq!(rt; plan.depth(), 0);
    assert!(rt; plan.number_of(b"arm").is_none());
    Ok(())
}
