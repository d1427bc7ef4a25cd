// Opening with just enough memory and with less, calls over it, and each refusal, alone and where two could apply.
use crate::{MOST_WORDS, Unanswered, call, open, words_asked};
use std::test::Fail;
use taps::refusal::Refusal;

// What a desk with the worked book and a limit of two taps asks for in each slice: 39, 3 and 14.
const HALF: usize = 56;

// The bytes of that book.
const BOOK: [u8; 44] = [
    6, 3, 96, 9, 0, 0, 6, 88, 2, 0, 0, 12, 0, 0, 0, 0, 24, 88, 2, 0, 0, 8, 184, 11, 0, 0, 4, 16,
    14, 0, 0, 4, 144, 1, 244, 1, 88, 2, 238, 2, 20, 0, 0, 0,
];

fn refused(number: u8, place: u8) -> [u8; 9] {
    [0, number, 0, 0, 0, place, 0, 0, 0]
}

fn number(low: u8, high: u8) -> [u8; 9] {
    [1, low, high, 0, 0, 0, 0, 0, 0]
}

// A desk in slices with a word more than it asks for.
#[derive(Clone, Copy)]
struct Desk {
    left: [u64; HALF + 1],
    right: [u64; HALF + 1],
}

impl Desk {
    fn new() -> Desk {
        let mut left = [7; HALF + 1];
        let mut right = [7; HALF + 1];
        let _ = open(&BOOK, 2, &mut left, &mut right);
        Desk { left, right }
    }

    // Whether a call is answered by these bytes.
    fn says(&mut self, request: &[u8], bytes: &[u8]) -> bool {
        let mut answer = [9; 20];
        match call(&mut self.left, &mut self.right, request, &mut answer) {
            Ok(told) => answer.get(..told) == Some(bytes),
            Err(_) => false,
        }
    }

    // Whether a call is refused so, and changes no word.
    fn refuses(&mut self, request: &[u8], number: u8, place: u8) -> bool {
        let before = *self;
        let told = self.says(request, &refused(number, place));
        told && self.left == before.left && self.right == before.right
    }

    // Whether a string of up to three bytes is answered as it has to be, with taps at 10 and 250 ms: each that is no call
    // is refused at the first byte that does not fit, or that is missing, and changes no word.
    fn answers(mut self, request: &[u8]) -> bool {
        match request {
            [1] => self.says(request, &number(1, 0)),
            [2] => self.says(request, &number(208, 2)),
            [3] => self.says(request, &[2, 1, 0, 1, 1]),
            [0] | [1..=3, ..] => self.refuses(request, 1, 1),
            [0, _] => self.refuses(request, 1, 2),
            [0, ..] => self.refuses(request, 1, 3),
            _ => self.refuses(request, 1, 0),
        }
    }

    // Whether a call is not answered, and nothing changes.
    fn lets_be(&mut self, room: usize, why: Unanswered) -> bool {
        let before = *self;
        let mut answer = [9; 20];
        let bytes = &mut answer[..room.min(20)];
        let told = call(&mut self.left, &mut self.right, &[1], bytes);
        told == Err(why)
            && self.left == before.left
            && self.right == before.right
            && answer == [9; 20]
    }
}

#[test]
fn memory_that_is_asked_for(rt: HostRuntime) {
    assert!(rt; words_asked(&BOOK, 2) == Ok(HALF));
    assert!(rt; words_asked(&BOOK, 0) == Ok(45));
    assert!(rt; words_asked(&BOOK, 256) == Ok(2596));
    assert!(rt; words_asked(&BOOK, 257) == Err(Refusal::LimitTooLarge));
    assert!(rt; words_asked(&BOOK[..43], 257) == Err(Refusal::NoBook));
}

// A book with the most tempi, from 100 ms on, and with the largest limit; how many kinds it has does not count.
#[test]
fn most_memory(rt: HostRuntime) {
    let mut book = [0; 139];
    book[0] = 1;
    book[1] = 12;
    book[6] = 64;
    for t in 0..64 {
        book[7 + 2 * t] = 100 + t as u8;
    }
    assert!(rt; words_asked(&book, 256) == Ok(MOST_WORDS));
}

// Whether a desk is refused so, and no word changes.
fn closed(book: &[u8], limit: usize, left: usize, right: usize, why: Refusal) -> bool {
    let mut first = [7; HALF];
    let mut second = [7; HALF];
    let told = open(
        book,
        limit,
        &mut first[..left.min(HALF)],
        &mut second[..right.min(HALF)],
    );
    told == Err(why) && first == [7; HALF] && second == [7; HALF]
}

#[test]
fn opening_in_the_order_of_its_checks(rt: HostRuntime) {
    assert!(rt; closed(&BOOK[..43], 257, 0, 0, Refusal::NoBook));
    assert!(rt; closed(&BOOK[..43], 257, HALF, HALF, Refusal::NoBook));
    assert!(rt; closed(&BOOK[..43], 2, HALF, 55, Refusal::NoBook));
    assert!(rt; closed(&BOOK, 257, 0, 0, Refusal::LimitTooLarge));
    assert!(rt; closed(&BOOK, 2, HALF - 1, HALF, Refusal::MemoryTooSmall));
    assert!(rt; closed(&BOOK, 2, HALF, HALF - 1, Refusal::MemoryTooSmall));
    let mut left = [7; HALF];
    let mut right = [7; HALF];
    assert!(rt; open(&BOOK, 2, &mut left, &mut right) == Ok(()));
    assert!(rt; left[..2] == [2, 44]);
    assert!(rt; left[39..] == [0; 17]);
    assert!(rt; right == [0; HALF]);
}

#[test]
fn calls_over_the_memory(rt: HostRuntime) {
    let mut desk = Desk::new();
    assert!(rt; desk.says(&[2], &number(0, 0)));
    assert!(rt; desk.says(&[0, 10, 0, 0, 0], &number(0, 0)));
    assert!(rt; desk.says(&[0, 250, 0, 0, 0], &number(1, 0)));
    assert!(rt; desk.says(&[2], &number(208, 2)));
    assert!(rt; desk.says(&[3], &[2, 1, 0, 1, 1]));
    assert!(rt; desk.says(&[1], &number(1, 0)));
    assert!(rt; desk.says(&[3], &[2, 0, 0]));
    assert!(rt; (desk.left[HALF], desk.right[HALF]) == (7, 7));
}

#[test]
fn refusals_in_the_order_of_the_list(rt: HostRuntime) {
    let mut desk = Desk::new();
    assert!(rt; desk.refuses(&[], 1, 0));
    assert!(rt; desk.refuses(&[4], 1, 0));
    assert!(rt; desk.refuses(&[0, 1, 0], 1, 3));
    assert!(rt; desk.refuses(&[1, 0], 1, 1));
    assert!(rt; desk.refuses(&[0, 0, 0, 0, 1], 2, 0));
    assert!(rt; desk.refuses(&[1], 5, 0));
    assert!(rt; desk.says(&[0, 10, 0, 0, 0], &number(0, 0)));
    assert!(rt; desk.refuses(&[0, 10, 0, 0, 0], 4, 0));
    assert!(rt; desk.says(&[0, 20, 0, 0, 0], &number(1, 0)));
    assert!(rt; desk.refuses(&[0, 21, 0, 0, 0], 6, 0));
    assert!(rt; desk.refuses(&[0, 20, 0, 0, 0], 4, 0));
    assert!(rt; desk.refuses(&[0, 0, 0, 0, 1], 2, 0));
    assert!(rt; desk.refuses(&[0, 0, 0, 0, 1, 0], 1, 5));
}

// As calls there are 16,843,009 such strings: some seconds when built, and longer than `rt try` waits, which builds nothing.
#[test]
fn every_string_of_up_to_three_bytes(rt: HostRuntime) {
    let mut desk = Desk::new();
    assert!(rt; desk.says(&[0, 10, 0, 0, 0], &number(0, 0)));
    assert!(rt; desk.says(&[0, 250, 0, 0, 0], &number(1, 0)));
    assert!(rt; desk.answers(&[]));
    for first in 0..=255 {
        assert!(rt; desk.answers(&[first]), "at {first}");
        for second in 0..=255 {
            assert!(rt; desk.answers(&[first, second]), "at {first} {second}");
            for third in 0..=255 {
                assert!(rt;
                    desk.answers(&[first, second, third]),
                    "at {first} {second} {third}"
                );
            }
        }
    }
}

// Whether the words are no desk's with another number in one place.
fn no_desk(at: usize, word: u64) -> bool {
    let mut desk = Desk::new();
    desk.says(&[0, 10, 0, 0, 0], &[]);
    desk.says(&[0, 20, 0, 0, 0], &[]);
    if at < HALF {
        desk.left[at] = word;
    }
    desk.lets_be(19, Unanswered::NoDesk)
}

#[test]
fn calls_that_are_not_answered(rt: HostRuntime) -> Result<(), Fail> {
    let mut desk = Desk::new();
    assert!(rt; desk.lets_be(19, Unanswered::AnswerTooSmall));
    // the limit, the book's size and its bytes, the count, and a time that is not later or too late
    for (at, word) in [
        (0, 257),
        (0, 4),
        (1, 43),
        (2, 0),
        (39, 3),
        (41, 10),
        (41, 16777216),
    ] {
        assert!(rt; no_desk(at, word));
    }
    let mut none = Desk {
        left: [0; HALF + 1],
        right: [0; HALF + 1],
    };
    assert!(rt; none.lets_be(20, Unanswered::NoDesk));
    let Some((short, _)) = desk.right.split_at_mut_checked(HALF - 1) else {
        return Err(Fail::new("no words"));
    };
    let told = call(&mut desk.left, short, &[2], &mut [0; 20]);
    assert!(rt; told == Err(Unanswered::NoDesk));
    Ok(())
}
