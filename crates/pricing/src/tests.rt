// Costs as lines, and what is told of taps and readings that are not taken.
use crate::costs::Costs;
use crate::tap_line::{Untaken, Why, parse_taps};
use std::test::Fail;
use taps::listed::Listed;
use taps::read::{MOST_GAPS, Read, Reading};
use taps::refusal::Refusal;
use taps::worked::worked_book;

// Quarters: two at 500 ms a beat, and the others at 600.
fn quarters(count: usize) -> Option<Reading> {
    let mut all = [Read { kind: 2, tempo: 2 }; MOST_GAPS];
    all[0] = Read { kind: 2, tempo: 1 };
    all[1] = Read { kind: 2, tempo: 1 };
    Listed::new(all, count)
}

#[test]
fn worked_taps(rt: HostRuntime) -> Result<(), Fail> {
    let book = &worked_book();
    let taps = parse_taps(b"0 500 1000 1600 2200 2800")?;
    let costs = Costs::new(book, taps, quarters(5).ok_or("no reading")?)?;
    assert_eq!(rt; costs.total(), 2000);
    let text = format!(in rt.alloc(); "{costs}")?;
    assert_eq!(rt;
        text.as_str(),
        "12@500 0\n12@500 0\n12@600 2000\n12@600 0\n12@600 0\nall 2000"
    );
    Ok(())
}

#[test]
fn no_taps(rt: HostRuntime) -> Result<(), Fail> {
    let book = &worked_book();
    let costs = Costs::new(book, parse_taps(b" ")?, quarters(0).ok_or("no reading")?)?;
    let text = format!(in rt.alloc(); "{costs}")?;
    assert_eq!(rt; text.as_str(), "all 0");
    Ok(())
}

#[test]
fn more_notes_than_gaps(rt: HostRuntime) -> Result<(), Fail> {
    let book = &worked_book();
    let reading = quarters(2).ok_or("no reading")?;
    let Err(wrong) = Costs::new(book, parse_taps(b"0 500")?, reading) else {
        return Err(Fail::new("two notes for a gap"));
    };
    let text = format!(in rt.alloc(); "{wrong}")?;
    assert_eq!(rt; text.as_str(), "2 notes for 1 gaps");
    Ok(())
}

#[test]
fn taps_that_are_not_taken(rt: HostRuntime) -> Result<(), Fail> {
    let Err(untaken) = parse_taps(b"0 500 500 x") else {
        return Err(Fail::new("a tap that is not later"));
    };
    assert!(rt;
        untaken
            == Untaken {
                tap: 2,
                why: Why::Refused(Refusal::NotLater)
            }
    );
    let text = format!(in rt.alloc(); "{untaken}")?;
    assert_eq!(rt; text.as_str(), "tap 2, counted from 0: refused 4 at 0");
    let Err(untaken) = parse_taps(b"0 5.5") else {
        return Err(Fail::new("a fraction"));
    };
    let text = format!(in rt.alloc(); "{untaken}")?;
    assert_eq!(rt; text.as_str(), "tap 1, counted from 0, is no number");
    Ok(())
}
