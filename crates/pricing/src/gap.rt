// What one gap costs, read as a kind at a tempo.
ghost use Rattle.std.specs.Prelude.{◌≡◌, ◌-◌, ◌*◌, ◌<◌, ◌==◌, Some, pos, ◌-ℤ◌};
ghost use Rattle.taps.specs.Readings.{apart, before_of, costs, kind_at, pick, tempo_at};
ghost use Rattle.taps.specs.Values.{book_of, read_of};
ghost use Rattle.pricing.specs.Pricing.{gap_text};

use std::fmt;
use taps::book::Book;
use taps::read::Read;
use text::answer::Note;

// What a gap costs read so, after a gap at the tempo `before`, if there is one. Outside of the book a kind has no ticks
// and no weight, and a tempo 0 ms.
pub fn gap_cost(book: &Book, before: Option<u8>, gap: u32, read: Read) -> u64
    ensures value { result ≡ costs (book_of book.now) (before_of before) gap (read_of read) }
    ensures small { result < 68719476736 }
{
    let (ticks, weight) = kind_at(book, read.kind);
    let tempo = tempo_at(book, read.tempo);
    let off = off(gap, ticks, tempo);
    off.unsigned_abs() + u64::from(weight) + change_cost(book, before, read.tempo)
}

// How much longer twelve gaps are than so many ticks at the tempo: below 0 where they are shorter.
fn off(gap: u32, ticks: u8, tempo: u16) -> i64
    ensures { result ≡ pos (12 * gap) -ℤ pos (ticks * tempo) }
{
    12 * i64::from(gap) - i64::from(ticks) * i64::from(tempo)
}

// What the change of tempo costs; nothing where there is no gap before.
fn change_cost(book: &Book, before: Option<u8>, tempo: u8) -> u64
    ensures value { result ≡ pick (before_of before == 0) 0 (book.now.change * apart (tempo_at (book_of book.now) (before_of before - 1)) (tempo_at (book_of book.now) tempo)) }
    ensures small { result < 4294967296 }
{
    let Some(before) = before else {
        return 0;
    };
    let apart = tempo_at(book, before).abs_diff(tempo_at(book, tempo));
    u64::from(book.change) * u64::from(apart)
}

// The ticks and the weight of the kind at a place, or 0 outside of the book.
fn kind_at(book: &Book, place: u8) -> (u8, u32)
    ensures ticks { result.0 ≡ (kind_at (book_of book.now) place).ticks }
    ensures weight { result.1 ≡ (kind_at (book_of book.now) place).weight }
{
    let kinds = book.kinds.list.as_slice();
    let kind = kinds.get(usize::from(place));
    kind.map_or((0, 0), |kind| (kind.ticks, kind.weight))
}

// The tempo at a place, or 0 outside of the book.
fn tempo_at(book: &Book, place: u8) -> u16
    ensures { result ≡ tempo_at (book_of book.now) place }
{
    let tempi = book.tempi.list.as_slice();
    tempi.get(usize::from(place)).map_or(0, |tempo| *tempo)
}

// A gap as a line: its note and what it costs, as in `12@500 0`.
#[derive(Clone, Copy)]
pub struct PricedGap<'a> {
    pub book: &'a Book,
    pub before: Option<u8>,
    pub gap: u32,
    pub read: Read,
}

impl fmt::Display for PricedGap<'_> {
    ghost output = { λ p. Some (gap_text (book_of p.book.now) (before_of p.before) p.gap (read_of p.read)) };

    fn fmt<W: fmt::Write>(&self, f: &mut fmt::Formatter<W>) -> fmt::Result {
        let note = Note {
            book: self.book,
            read: self.read,
        };
        let cost = gap_cost(self.book, self.before, self.gap, self.read);
        write!(f, "{note} {cost}")
    }
}
