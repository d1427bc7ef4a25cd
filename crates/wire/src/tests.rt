// The bytes that docs/FORMATS.md shows, and damaged ones.
use crate::answer::{decode_answer, encode_answer};
use crate::call::{decode_call, encode_call};
use std::test::Fail;
use taps::answer::Answer;
use taps::call::Call;
use taps::read::{MOST_GAPS, Read, Reading};
use taps::refusal::Refusal;

fn reads_as(bytes: &[u8], call: Call) -> bool {
    decode_call(bytes) == Ok(call)
}

fn garbled_at(bytes: &[u8], place: u32) -> bool {
    decode_call(bytes) == Err(Refusal::Garbled(place))
}

#[test]
fn calls_as_shown(rt: HostRuntime) {
    let mut out = [9; 6];
    assert_eq!(rt; encode_call(Call::Tap(500), &mut out), Some(5));
    assert_eq!(rt; out, [0, 244, 1, 0, 0, 9]);
    assert!(rt; reads_as(&[0, 244, 1, 0, 0], Call::Tap(500)));
    assert!(rt; reads_as(&[1], Call::Back));
    assert!(rt; reads_as(&[2], Call::Cost));
    assert!(rt; reads_as(&[3], Call::Read));
}

#[test]
fn calls_damaged(rt: HostRuntime) {
    assert!(rt; garbled_at(&[], 0));
    assert!(rt; garbled_at(&[4], 0));
    assert!(rt; garbled_at(&[255, 0, 0], 0));
    assert!(rt; garbled_at(&[0], 1));
    assert!(rt; garbled_at(&[0, 1], 2));
    assert!(rt; garbled_at(&[0, 1, 2], 3));
    assert!(rt; garbled_at(&[0, 1, 2, 3], 4));
    assert!(rt; garbled_at(&[0, 1, 2, 3, 4, 5], 5));
    assert!(rt; garbled_at(&[0, 1, 2, 3, 4, 5, 6], 5));
    assert!(rt; garbled_at(&[1, 0], 1));
    assert!(rt; garbled_at(&[3, 3, 3], 1));
}

fn written(answer: Answer, bytes: &[u8]) -> bool {
    let mut out = [9; 16];
    match encode_answer(answer, &mut out) {
        Some(size) => size <= 16 && &out[0..size] == bytes,
        None => false,
    }
}

fn two_gaps() -> Option<Reading> {
    let mut all = [Read::new(0, 0)?; MOST_GAPS];
    all[0] = Read::new(2, 1)?;
    all[1] = Read::new(31, 63)?;
    Reading::new(all, 2)
}

#[test]
fn answers_as_shown(rt: HostRuntime) -> Result<(), Fail> {
    assert!(rt;
        written(
            Answer::Refused(Refusal::NotLater),
            &[0, 4, 0, 0, 0, 0, 0, 0, 0],
        )
    );
    assert!(rt;
        written(
            Answer::Refused(Refusal::Garbled(258)),
            &[0, 1, 0, 0, 0, 2, 1, 0, 0],
        )
    );
    assert!(rt; written(Answer::Number(1200), &[1, 176, 4, 0, 0, 0, 0, 0, 0]));
    let Some(reading) = two_gaps() else {
        return Err(Fail::new("no reading"));
    };
    assert!(rt; written(Answer::Reads(reading), &[2, 2, 0, 2, 1, 31, 63]));
    let Some(back) = decode_answer(&[2, 2, 0, 2, 1, 31, 63]) else {
        return Err(Fail::new("no answer"));
    };
    assert!(rt; written(back, &[2, 2, 0, 2, 1, 31, 63]));
    Ok(())
}

#[test]
fn answers_damaged(rt: HostRuntime) {
    assert!(rt; decode_answer(&[]).is_none());
    assert!(rt; decode_answer(&[3]).is_none());
    assert!(rt; decode_answer(&[0, 4, 0, 0, 0, 0, 0, 0]).is_none());
    assert!(rt; decode_answer(&[0, 4, 0, 0, 0, 1, 0, 0, 0]).is_none());
    assert!(rt; decode_answer(&[0, 7, 0, 0, 0, 0, 0, 0, 0]).is_none());
    assert!(rt; decode_answer(&[1, 0, 0, 0, 0, 0, 0, 0, 0, 0]).is_none());
    assert!(rt; decode_answer(&[2, 1]).is_none());
    assert!(rt; decode_answer(&[2, 1, 0, 2]).is_none());
    assert!(rt; decode_answer(&[2, 1, 0, 32, 0]).is_none());
    assert!(rt; decode_answer(&[2, 1, 0, 0, 64]).is_none());
    assert!(rt; decode_answer(&[2, 0, 0, 0]).is_none());
}
