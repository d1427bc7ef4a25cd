// Calls, answers and readings as lines.
use crate::answer::Line;
use crate::call::{CallLine, parse_call};
use crate::reading::{Unread, parse_reading};
use std::test::Fail;
use taps::answer::Answer;
use taps::call::Call;
use taps::listed::Listed;
use taps::read::{MOST_GAPS, Read};
use taps::refusal::Refusal;
use taps::worked::worked_book;

#[test]
fn answers_as_lines(rt: HostRuntime) -> Result<(), Fail> {
    let book = &worked_book();
    let answer = &Answer::Refused(Refusal::NotLater);
    let refused = format!(in rt.alloc(); "{}", Line { book, answer })?;
    assert!(rt; refused.as_str() == "refused 4 at 0");
    let answer = &Answer::Number(720);
    let number = format!(in rt.alloc(); "{}", Line { book, answer })?;
    assert!(rt; number.as_str() == "720");
    Ok(())
}

#[test]
fn calls_as_lines(rt: HostRuntime) -> Result<(), Fail> {
    assert!(rt; parse_call(b" tap  500\t") == Some(Call::Tap(500)));
    assert!(rt; parse_call(b"tap").is_none());
    assert!(rt; parse_call(b"tap 5x").is_none());
    assert!(rt; parse_call(b"read on").is_none());
    let call = Call::Tap(240);
    let tap = format!(in rt.alloc(); "{}", CallLine { call })?;
    assert!(rt; tap.as_str() == "tap 240");
    Ok(())
}

#[test]
fn readings_as_lines(rt: HostRuntime) -> Result<(), Fail> {
    let book = &worked_book();
    let none = Listed {
        all: [Read { kind: 0, tempo: 0 }; MOST_GAPS],
        count: 0,
    };
    let reading = parse_reading(book, b"12@500 6@400").unwrap_or(none);
    let answer = &Answer::Reads(reading);
    let notes = format!(in rt.alloc(); "{}", Line { book, answer })?;
    assert!(rt; notes.as_str() == "12@500 6@400");
    assert!(rt; parse_reading(book, b"none").is_ok());
    assert!(rt; parse_reading(book, b" ").is_err());
    let unread = format!(in rt.alloc(); "{}", Unread::NotInBook(2))?;
    assert!(rt; unread.as_str() == "note 3 is not in the book");
    Ok(())
}
