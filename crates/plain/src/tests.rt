// Rows and costs worked by hand, in the worked book.
ghost use Rattle.std.specs.Prelude.{◌≡◌};
ghost use Rattle.taps.specs.Values.{book_of};
ghost use Rattle.taps.specs.Worked.{worked};

use crate::{
    MOST_KEPT_WORDS, MOST_ROW_WORDS, Plain, keep_gap, keep_start, kept_cost, kept_words, row_words,
};
use bitset::BitSet;
use model::{Step, keep_step, write_suffix_rows};
use std::test::Fail;
use taps::read::{MOST_GAPS, TOO_MUCH};
use taps::tempi::{MOST_TEMPI, Tempi};
use taps::worked::worked_book;

// Words for what is kept of five gaps at four tempi, and for their rows.
const KEPT: usize = 50;

const ROWS: usize = 30;

fn model() -> Plain
    ensures { book_of result.book ≡ worked }
{
    Plain {
        book: worked_book(),
    }
}

// Keeps gaps, and says what they cost.
fn keep(gaps: &[u16], kept: &mut [u64]) -> Option<u64> {
    let book = &worked_book();
    keep_start(book, kept)?;
    for (done, gap) in gaps.iter().enumerate() {
        keep_gap(book, done, u32::from(*gap), kept)?;
    }
    kept_cost(book, gaps.len(), kept)
}

fn cost(gaps: &[u16]) -> Option<u64> {
    keep(gaps, &mut [7; KEPT])
}

#[test]
fn worked_gaps(rt: HostRuntime) {
    assert!(rt; cost(&[500, 500, 250, 250, 500]) == Some(1200));
    assert!(rt; cost(&[510, 480, 270, 220, 530]) == Some(2520));
    assert!(rt; cost(&[400, 400, 200, 200, 400]) == Some(1200));
    assert!(rt; cost(&[500, 167, 166, 167, 500]) == Some(4800));
    assert!(rt; cost(&[500, 500, 600, 600, 600]) == Some(2000));
    assert!(rt; cost(&[240]) == Some(720));
    assert!(rt; cost(&[]) == Some(0));
}

#[test]
fn what_is_kept_of_two_gaps(rt: HostRuntime) {
    let mut kept = [7; 25];
    assert!(rt; keep(&[500, 250], &mut kept) == Some(600));
    assert!(rt; kept[..5] == [0, TOO_MUCH, TOO_MUCH, TOO_MUCH, TOO_MUCH]);
    assert!(rt; kept[5..9] == [1200, 0, 1200, 2100]);
    assert!(rt; kept[9..14] == [TOO_MUCH, 1200, 0, 1200, 2100]);
    assert!(rt; kept[14..18] == [1200, 600, 1200, 2100]);
    assert!(rt; kept[18..] == [TOO_MUCH, 2400, 600, 2400, 4200, 7, 7]);
}

// A gap that takes another's place leaves nothing of it.
#[test]
fn played_otherwise(rt: HostRuntime) {
    let book = &worked_book();
    let mut kept = [7; KEPT];
    keep(&[500, 500, 600, 600, 600], &mut kept);
    keep_gap(book, 2, 250, &mut kept);
    keep_gap(book, 3, 250, &mut kept);
    keep_gap(book, 4, 500, &mut kept);
    let mut other = [7; KEPT];
    assert!(rt; keep(&[500, 500, 250, 250, 500], &mut other) == Some(1200));
    assert!(rt; kept == other);
}

#[test]
fn words_too_few_stay_as_they_are(rt: HostRuntime) {
    let book = &worked_book();
    let mut kept = [7; 13];
    assert!(rt; keep_start(book, &mut kept[..4]).is_none());
    assert!(rt; keep_gap(book, 0, 500, &mut kept).is_none());
    assert!(rt; kept_cost(book, 1, &kept).is_none());
    assert!(rt; kept == [7; 13]);
    assert!(rt; (kept_words(book, 5), row_words(book, 5)) == (KEPT, ROWS));
    assert!(rt; (kept_words(book, 300), row_words(book, 300)) == (2300, 1280));
}

// The most words are what the most gaps take in a book with the most tempi, and none more.
#[test]
fn most_words(rt: HostRuntime) -> Result<(), Fail> {
    let mut all = [0; MOST_TEMPI];
    for t in 0..MOST_TEMPI {
        all[t] = 100 + t as u16;
    }
    let Some(tempi) = Tempi::new(all, MOST_TEMPI) else {
        return Err(Fail::new("no tempi"));
    };
    let mut book = worked_book();
    book.tempi = tempi;
    assert!(rt; kept_words(&book, MOST_GAPS) == MOST_KEPT_WORDS);
    assert!(rt; row_words(&book, MOST_GAPS) == MOST_ROW_WORDS);
    Ok(())
}

// A gap that may be read as any kind, or as some.
fn step(gap: u16, kinds: BitSet) -> Step {
    let gap = u32::from(gap);
    Step { gap, kinds }
}

#[test]
fn rows_for_each_tempo_before(rt: HostRuntime) {
    let steps = [step(500, BitSet::full()), step(250, BitSet::full())];
    let mut kept = [7; 23];
    keep(&[500, 250], &mut kept);
    let mut rows = [7; 17];
    assert!(rt; write_suffix_rows(&model(), &steps, &kept, &mut rows) == Some(15));
    assert!(rt; rows[..5] == [600, 2400, 600, 2400, 4200]);
    assert!(rt; rows[5..10] == [600, 1200, 600, 1200, 2100]);
    assert!(rt; rows[10..] == [0, 0, 0, 0, 0, 7, 7]);
    assert!(rt; write_suffix_rows(&model(), &steps, &kept, &mut rows[..14]).is_none());
}

// The least sum of what leads to a tempo and what follows it, where rows of both directions meet.
fn meeting(before: &[u64], after: &[u64]) -> u64 {
    let mut least = TOO_MUCH;
    for (before, after) in before.iter().zip(after) {
        least = least.min(before.saturating_add(*after));
    }
    least
}

#[test]
fn one_least_by_all_rows(rt: HostRuntime) {
    let all = BitSet::full();
    let steps = [
        step(500, all),
        step(167, all),
        step(166, all),
        step(167, all),
        step(500, all),
    ];
    let mut kept = [7; KEPT];
    let mut rows = [7; ROWS];
    assert!(rt; keep(&[500, 167, 166, 167, 500], &mut kept) == Some(4800));
    assert!(rt; write_suffix_rows(&model(), &steps, &kept, &mut rows) == Some(ROWS));
    assert!(rt; rows[0] == 4800);
    for gaps in 0..6 {
        let before = &kept[9 * gaps..][..5];
        let after = &rows[5 * gaps..][..5];
        assert!(rt; meeting(before, after) == 4800);
    }
}

#[test]
fn with_some_kinds_alone(rt: HostRuntime) {
    let mut kept = [7; KEPT];
    let book = &worked_book();
    keep_start(book, &mut kept);
    keep_step(&model(), 0, step(500, BitSet::only(1)), &mut kept);
    assert!(rt; kept_cost(book, 1, &kept) == Some(2100));
    keep_step(&model(), 1, step(250, BitSet::only(6)), &mut kept);
    assert!(rt; kept_cost(book, 2, &kept) == Some(TOO_MUCH));
}
