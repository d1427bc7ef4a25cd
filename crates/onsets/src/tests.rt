// Taps that are taken, each refusal and what it leaves, words that no desk left and how they are told, and gaps.
use crate::{append, clear, count, gap, is_sound, last, limit, take_back, write_gaps};
use taps::refusal::Refusal;

#[test]
fn taps_come_and_are_taken_back(rt: HostRuntime) {
    let mut words = [9; 4];
    clear(&mut words);
    assert_eq!(rt; words, [0, 0, 0, 0]);
    assert_eq!(rt; last(&words), None);
    assert!(rt; append(&mut words, 0) == Ok(0));
    assert!(rt; append(&mut words, 16777215) == Ok(1));
    assert_eq!(rt; words, [2, 0, 16777215, 0]);
    assert!(rt; take_back(&mut words) == Ok(1));
    assert_eq!(rt; words, [1, 0, 16777215, 0]);
    assert_eq!(rt; last(&words), Some(0));
    assert!(rt; append(&mut words, 250) == Ok(1));
    assert_eq!(rt; words, [2, 0, 250, 0]);
}

// Whether a tap is refused so, and no word changes.
fn refuses(words: [u64; 3], time: u32, refusal: Refusal) -> bool {
    let mut after = words;
    append(&mut after, time) == Err(refusal) && after == words
}

#[test]
fn refusals_in_their_order(rt: HostRuntime) {
    assert!(rt; refuses([1, 10, 20], 16777216, Refusal::TooLate));
    assert!(rt; refuses([1, 10, 20], 4294967295, Refusal::TooLate));
    assert!(rt; refuses([1, 10, 20], 10, Refusal::NotLater));
    assert!(rt; refuses([2, 10, 20], 21, Refusal::TooManyTaps));
    assert!(rt; refuses([2, 10, 20], 20, Refusal::NotLater));
    assert!(rt; refuses([2, 10, 20], 16777216, Refusal::TooLate));
    let mut none = [0, 10, 20];
    assert!(rt; take_back(&mut none) == Err(Refusal::NoTap));
    assert_eq!(rt; none, [0, 10, 20]);
}

#[test]
fn words_that_no_desk_left(rt: HostRuntime) {
    let mut many = [18446744073709551615, 7, 5];
    assert_eq!(rt; count(&many), 2);
    assert_eq!(rt; gap(&many, 0), Some(0));
    assert!(rt; take_back(&mut many) == Ok(1));
    assert_eq!(rt; many, [1, 7, 5]);
    assert!(rt; refuses([9, 7, 5], 6, Refusal::TooManyTaps));
    assert_eq!(rt; count(&[300; 300]), 256);
    assert_eq!(rt; limit(&[]), 0);
    assert!(rt; append(&mut [], 1) == Err(Refusal::TooManyTaps));
    assert!(rt; take_back(&mut []) == Err(Refusal::NoTap));
}

#[test]
fn words_as_a_desk_leaves_them(rt: HostRuntime) {
    assert!(rt; is_sound(&[]));
    assert!(rt; is_sound(&[0]));
    assert!(rt; is_sound(&[2, 0, 16777215]));
    assert!(rt; is_sound(&[1, 10, 10, 16777216]));
    assert!(rt; !is_sound(&[2, 10, 10]));
    assert!(rt; !is_sound(&[3, 10, 20, 19]));
    assert!(rt; !is_sound(&[2, 10, 16777216]));
    assert!(rt; !is_sound(&[3, 10, 20]));
    // As many taps as there may be, and then one more, in words that are long enough for it.
    let mut many = [0; 300];
    for (i, word) in many.iter_mut().enumerate() {
        *word = i as u64 + 256;
    }
    assert!(rt; is_sound(&many));
    many[0] = 257;
    assert!(rt; !is_sound(&many));
}

#[test]
fn gaps_between_taps(rt: HostRuntime) {
    let words = [3, 100, 350, 1350, 8];
    assert_eq!(rt; gap(&words, 1), Some(1000));
    assert_eq!(rt; gap(&words, 2), None);
    let mut out = [7; 3];
    assert_eq!(rt; write_gaps(&words, &mut out), Some(2));
    assert_eq!(rt; out, [250, 1000, 7]);
    let mut short = [7];
    assert_eq!(rt; write_gaps(&words, &mut short), None);
    assert_eq!(rt; write_gaps(&[1, 100], &mut short), Some(0));
    assert_eq!(rt; short, [7]);
}
