// Calls answered one after another, in the worked book.
use crate::answer_call;
use onsets::MOST_WORDS;
use plain::{MOST_KEPT_WORDS, MOST_ROW_WORDS};
use taps::answer::Answer;
use taps::call::Call;
use taps::read::{Read, Reading};
use taps::worked::worked_book;

// The reading told of some taps, and what it costs.
fn told(taps: &[u32]) -> Option<(u64, Reading)> {
    let book = &worked_book();
    let mut words = [0; MOST_WORDS];
    let mut kept = [5; MOST_KEPT_WORDS];
    let mut rows = [0; MOST_ROW_WORDS];
    for tap in taps {
        answer_call(book, &mut words, &mut kept, &mut rows, Call::Tap(*tap))?;
    }
    let Answer::Number(cost) = answer_call(book, &mut words, &mut kept, &mut rows, Call::Cost)?
    else {
        return None;
    };
    let Answer::Reads(reading) = answer_call(book, &mut words, &mut kept, &mut rows, Call::Read)?
    else {
        return None;
    };
    Some((cost, reading))
}

// Whether taps are read so, at this cost.
fn reads(taps: &[u32], cost: u64, reads: &[Read]) -> bool {
    told(taps).is_some_and(|told| told.0 == cost && told.1.as_slice() == reads)
}

fn read(kind: u8, tempo: u8) -> Read {
    Read::new(kind, tempo).unwrap_or(Read { kind: 0, tempo: 0 })
}

// Several readings cost as little, and the first is told: the others were found by trying all.
#[test]
fn of_equals_the_first(rt: HostRuntime) {
    // 24@400, 24@500
    assert!(rt; reads(&[0, 900], 1800, &[read(2, 3)]));
    // 12@500 12@500
    assert!(rt; reads(&[0, 450, 900], 1200, &[read(2, 0), read(2, 0)]));
    // 12@400 12@400, 12@500 12@500
    assert!(rt; reads(&[0, 350, 850], 1800, &[read(1, 1), read(2, 1)]));
    // 12@500 6@500, 12@500 12@500
    assert!(rt; reads(&[0, 500, 850], 1800, &[read(2, 0), read(2, 0)]));
    // 6@600 12@600, 12@400 12@400, 12@500 12@500
    assert!(rt; reads(&[0, 350, 875], 2100, &[read(1, 1), read(2, 1)]));
    // 12@500 6@500, 12@500 12@500, 12@600 6@600
    assert!(rt; reads(&[0, 525, 875], 2100, &[read(2, 0), read(2, 0)]));
    // 6@500 12@500 6@500, 6@600 12@600 3@600, 6@600 12@600 6@600
    let reading = [read(1, 0), read(3, 0), read(1, 0)];
    assert!(rt; reads(&[0, 225, 875, 1025], 4500, &reading));
    // 12@500 6@500 6@500, 12@600 6@600 3@600, 12@600 6@600 6@600
    let reading = [read(2, 0), read(1, 0), read(1, 0)];
    assert!(rt; reads(&[0, 600, 775, 925], 4500, &reading));
}

// What was kept of taps that were taken back is not taken for what is kept of others.
#[test]
fn taken_back_and_played_otherwise(rt: HostRuntime) {
    let book = &worked_book();
    let mut words = [0; MOST_WORDS];
    let mut kept = [5; MOST_KEPT_WORDS];
    let mut rows = [0; MOST_ROW_WORDS];
    for time in [0, 500, 1000, 1600, 2200, 2800] {
        answer_call(book, &mut words, &mut kept, &mut rows, Call::Tap(time));
    }
    answer_call(book, &mut words, &mut kept, &mut rows, Call::Read);
    for _ in 0..3 {
        answer_call(book, &mut words, &mut kept, &mut rows, Call::Back);
    }
    let cost = answer_call(book, &mut words, &mut kept, &mut rows, Call::Cost);
    assert!(rt; cost.map(number) == Some((1, 0)));
    for time in [1250, 1500, 2000] {
        answer_call(book, &mut words, &mut kept, &mut rows, Call::Tap(time));
    }
    let cost = answer_call(book, &mut words, &mut kept, &mut rows, Call::Cost);
    assert!(rt; cost.map(number) == Some((1, 1200)));
}

// An answer as its first byte's case and its number, or how many gaps are read.
fn number(answer: Answer) -> (u8, u64) {
    match answer {
        Answer::Refused(refusal) => (0, u64::from(refusal.number())),
        Answer::Number(number) => (1, number),
        Answer::Reads(reading) => (2, reading.as_slice().len() as u64),
    }
}

#[test]
fn calls_one_after_another(rt: HostRuntime) {
    let calls = [
        (Call::Read, (2, 0)),
        (Call::Tap(100), (1, 0)),
        (Call::Tap(100), (0, 4)),
        (Call::Tap(340), (1, 1)),
        (Call::Cost, (1, 720)),
        (Call::Read, (2, 1)),
        (Call::Tap(16777216), (0, 2)),
        (Call::Back, (1, 1)),
        (Call::Back, (1, 0)),
        (Call::Back, (0, 5)),
    ];
    let book = &worked_book();
    let mut words = [0; MOST_WORDS];
    let mut kept = [5; MOST_KEPT_WORDS];
    let mut rows = [0; MOST_ROW_WORDS];
    for (call, told) in calls {
        let answer = answer_call(book, &mut words, &mut kept, &mut rows, call);
        assert!(rt; answer.map(number) == Some(told));
    }
}

// With four tempi the rows of as many taps as the limit take 256 times five words.
#[test]
fn calls_without_room_for_rows(rt: HostRuntime) {
    let book = &worked_book();
    let mut words = [5; MOST_WORDS];
    let mut kept = [5; MOST_KEPT_WORDS];
    let mut rows = [0; 256 * 5 - 1];
    assert!(rt; answer_call(book, &mut words, &mut kept, &mut rows, Call::Back).is_none());
    assert!(rt; words == [5; MOST_WORDS]);
    let mut rows = [0; 256 * 5];
    assert!(rt; answer_call(book, &mut words, &mut kept, &mut rows, Call::Back).is_some());
}
