// The bounds of what a book and a reading hold, and the list of refusals.
use crate::answer::Answer;
use crate::kind::Kind;
use crate::kinds::{Kinds, MOST_KINDS};
use crate::listed::Listed;
use crate::read::Read;
use crate::refusal::{Refusal, Unlisted};
use crate::tempi::{MOST_TEMPI, Tempi};
use std::test::Fail;

#[test]
fn kinds_within_bounds(rt: HostRuntime) -> Result<(), Fail> {
    assert!(rt; Kind::new(1, 0).is_some());
    assert!(rt; Kind::new(96, 16777215).is_some());
    assert!(rt; Kind::new(0, 0).is_none());
    assert!(rt; Kind::new(97, 0).is_none());
    assert!(rt; Kind::new(12, 16777216).is_none());
    let Some(quarter) = Kind::new(12, 0) else {
        return Err(Fail::new("a quarter is refused"));
    };
    assert!(rt; Kinds::new([quarter; MOST_KINDS], 0).is_none());
    assert!(rt; Kinds::new([quarter; MOST_KINDS], 33).is_none());
    assert!(rt; Kinds::new([quarter; MOST_KINDS], 32).is_some());
    Ok(())
}

fn tempi(first: u16, second: u16, count: usize) -> Option<Tempi> {
    let mut all = [0; MOST_TEMPI];
    all[0] = first;
    all[1] = second;
    Tempi::new(all, count)
}

#[test]
fn tempi_rise_within_bounds(rt: HostRuntime) {
    assert!(rt; tempi(100, 4000, 2).is_some());
    assert!(rt; tempi(100, 4000, 3).is_none());
    assert!(rt; tempi(99, 4000, 2).is_none());
    assert!(rt; tempi(100, 4001, 2).is_none());
    assert!(rt; tempi(500, 500, 2).is_none());
    assert!(rt; tempi(4000, 0, 1).is_some());
    assert!(rt; tempi(4000, 0, 0).is_none());
    assert!(rt; tempi(4000, 0, 65).is_none());
}

#[test]
fn places_within_bounds(rt: HostRuntime) {
    assert!(rt; Read::new(31, 63).is_some());
    assert!(rt; Read::new(32, 0).is_none());
    assert!(rt; Read::new(0, 64).is_none());
}

#[test]
fn refusals_by_number_and_place(rt: HostRuntime) {
    assert_eq!(rt;
        Refusal::try_from((1, 4294967295)),
        Ok(Refusal::Garbled(4294967295))
    );
    assert_eq!(rt; Refusal::try_from((3, 2)), Ok(Refusal::MemoryTooSmall));
    assert_eq!(rt; Refusal::try_from((3, 3)), Err(Unlisted));
    assert_eq!(rt; Refusal::try_from((0, 0)), Err(Unlisted));
    assert_eq!(rt; Refusal::try_from((7, 0)), Err(Unlisted));
    assert_eq!(rt; Refusal::try_from((4, 1)), Err(Unlisted));
    assert_eq!(rt; Refusal::TooManyTaps.number(), 6);
    assert_eq!(rt; Refusal::LimitTooLarge.place(), 1);
}

#[test]
fn lists_and_their_copies(rt: HostRuntime) -> Result<(), Fail> {
    let Some(list) = Listed::<u16, 3>::new([5, 7, 9], 2) else {
        return Err(Fail::new("no list"));
    };
    let copy = list.clone()?;
    assert!(rt; copy.as_slice() == [5, 7].as_slice());
    assert!(rt; Listed::<u16, 3>::new([5, 7, 9], 4).is_none());
    Ok(())
}

#[test]
fn answers_to_what_was_taken(rt: HostRuntime) {
    assert!(rt; matches!(Answer::from(Ok(255)), Answer::Number(255)));
    assert!(rt;
        matches!(
            Answer::from(Err(Refusal::NoTap)),
            Answer::Refused(Refusal::NoTap)
        )
    );
}

#[test]
fn refusals_as_text(rt: HostRuntime) -> Result<(), Fail> {
    let text = format!(in rt.alloc(); "{}", Refusal::Garbled(258))?;
    assert!(rt; text.as_str() == "refused 1 at 258");
    Ok(())
}
