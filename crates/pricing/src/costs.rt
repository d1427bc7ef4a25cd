// What the gaps between taps cost, each and all, as a reading reads them.
ghost use Rattle.std.specs.Prelude.{◌≡◌, ◌==◌, length, is_ok, IfOk, IfErr, Some};
ghost use Rattle.taps.specs.Calls.{gaps};
ghost use Rattle.taps.specs.Readings.{all_cost};
ghost use Rattle.taps.specs.Values.{book_of, reading_of};
ghost use Rattle.pricing.specs.Pricing.{price_text, wrong_text};
ghost use Rattle.pricing.specs.Values.{times_of};

use crate::gap::{PricedGap, gap_cost};
use crate::tap_list::Taps;
use std::error::Error;
use std::fmt;
use taps::book::Book;
use taps::read::Reading;

// Taps and a reading of them, with a note for each gap. It is printed as a line for each gap and what all cost.
#[derive(Clone, Copy)]
pub struct Costs<'a> {
    pub book: &'a Book,
    pub taps: Taps,
    pub reading: Reading,
    ghost each: { length (reading_of reading) ≡ length (gaps (times_of taps)) },
}

// A reading with more notes, or fewer, than there are gaps.
#[derive(Clone, Copy, PartialEq, Eq, Debug)]
pub struct WrongCount {
    pub notes: usize,
    pub gaps: usize,
}

impl<'a> Costs<'a> {
    // A reading of the taps, where it has just as many notes as there are gaps.
    pub fn new(book: &'a Book, taps: Taps, reading: Reading) -> Result<Costs<'a>, WrongCount>
        ensures test { is_ok result ≡ (length (reading_of reading) == length (gaps (times_of taps))) }
        ensures value { IfOk result (λ c. (c.book.now ≡ book.now) × (c.taps ≡ taps) × (c.reading ≡ reading)) }
        ensures counts { IfErr result (λ e. (e.notes ≡ length (reading_of reading)) × (e.gaps ≡ length (gaps (times_of taps)))) }
    {
        let notes = reading.as_slice().len();
        let gaps = taps.gap_count();
        if notes != gaps {
            return Err(WrongCount { notes, gaps });
        }
        Ok(Costs {
            book,
            taps,
            reading,
        })
    }

    // What all gaps cost together.
    pub fn total(&self) -> u64
        ensures { result ≡ all_cost (book_of self.now.book.now) 0 (gaps (times_of self.now.taps)) (reading_of self.now.reading) }
    {
        let reads = self.reading.as_slice();
        let mut total = 0;
        let mut before = None;
        for (i, read) in reads.iter().enumerate() {
            let gap = self.taps.gap(i).unwrap();
            total += gap_cost(self.book, before, gap, *read);
            before = Some(read.tempo);
        }
        total
    }
}

impl fmt::Display for Costs<'_> {
    ghost output = { λ c. Some (price_text (book_of c.book.now) (gaps (times_of c.taps)) (reading_of c.reading)) };

    fn fmt<W: fmt::Write>(&self, f: &mut fmt::Formatter<W>) -> fmt::Result {
        let book = self.book;
        let reads = self.reading.as_slice();
        let mut before = None;
        for (i, read) in reads.iter().enumerate() {
            let gap = self.taps.gap(i).unwrap();
            let read = *read;
            let priced = PricedGap {
                book,
                before,
                gap,
                read,
            };
            writeln!(f, "{priced}")?;
            before = Some(read.tempo);
        }
        let total = self.total();
        write!(f, "all {total}")
    }
}

impl fmt::Display for WrongCount {
    ghost output = { λ wrong. Some (wrong_text wrong.notes wrong.gaps) };

    fn fmt<W: fmt::Write>(&self, f: &mut fmt::Formatter<W>) -> fmt::Result {
        let notes = self.notes;
        let gaps = self.gaps;
        write!(f, "{notes} notes for {gaps} gaps")
    }
}

impl Error for WrongCount {}
