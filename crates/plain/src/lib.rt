// The plain book as a model: a state is the tempo before.
//
// A gap costs what it costs as one of its kinds at a tempo (`fit`), and what the change from the tempo before costs
// (`shift`). State 0 is that there is no tempo before; the state after it is the book's first tempo, and so on. By itself
// a gap costs, at each tempo, what it costs as the cheapest kind. That is found by one look at each kind with each tempo,
// and is kept, with the row after the gap; a row is made from it, and from the row beside it, by some looks at each tempo.
// `specs/Rows.antt` says what rows have and what is kept, by the definitions of readings. Read `keep_gap`, `kept_cost`
// and `first_reading` first.
#![tactic(auto)]

ghost use Rattle.std.specs.Prelude.{◌≡◌, ℕ, ◌+◌, ◌*◌, ◌<◌, min, List, [], ◌∷◌, ◌++◌, Some, None, length, nat_le, false, ◌&&◌, MatchOption, slice_index};
ghost use Rattle.std.specs.Option.{is_some, option_map};
ghost use Rattle.octets.specs.Bytes.{StartsWith, room, written};
ghost use Rattle.taps.specs.Items.{items};
ghost use Rattle.taps.specs.Readings as readings;
ghost use Rattle.taps.specs.Readings.{least, pick, reading, too_much};
ghost use Rattle.taps.specs.Values.{book_of, read_of, reading_of};
ghost use Rattle.taps.proofs.Good.{book_is_good};
ghost use Rattle.fit.specs.Fit.{fits};
ghost use Rattle.plain.specs.Owed.{lawful, local_sized, states};
ghost use Rattle.plain.specs.Restricted.{Free, Short, fair, gaps_of, restricted, state_count, tempo_count};
ghost use Rattle.plain.specs.Rows.{kept_rows, kept_size, rows, rows_size};
ghost use Rattle.plain.specs.Laws.{RowsMeet};

use bitset::BitSet;
use fit::fill;
use least::least_of;
use model::{Step, Trellis, write_suffix_rows};
use shift::shift;
use taps::book::Book;
use taps::listed::Listed;
use taps::read::{MOST_GAPS, Read, Reading, TOO_MUCH};
use taps::tempi::MOST_TEMPI;

// Words for what is kept of as many gaps as a reading may have, in any book.
pub const MOST_KEPT_WORDS: usize = MOST_GAPS * (2 * MOST_TEMPI + 1) + MOST_TEMPI + 1;
// Words for the rows from the last gap on, of as many gaps.
pub const MOST_ROW_WORDS: usize = (MOST_GAPS + 1) * (MOST_TEMPI + 1);

#[derive(Clone, Copy)]
pub struct Plain {
    pub book: Book,
}

impl Trellis for Plain {
    type Read = Read;

    ghost Choice = { readings.Read };

    ghost choice_of = { read_of };

    ghost reader = { λ m. restricted (book_of m.book) };

    ghost states = { λ m. states (book_of m.book) };

    ghost count = { λ m. state_count (book_of m.book) };

    // 2^29, more than any gap costs in any book
    ghost most = { λ _. 536870912 };

    ghost fair = { λ m. fair (book_of m.book) };

    ghost lawful = { λ m. lawful (book_of m.book) (book_is_good m.book) };

    ghost local_size = { λ m. tempo_count (book_of m.book) };

    ghost local_costs = { λ m g. fits (book_of m.book) g.kinds.bits g.gap };

    ghost local_sized = { λ m. local_sized (book_of m.book) };

    fn state_count(&self) -> usize {
        self.book.tempi.list.count + 1
    }

    fn local_count(&self) -> usize {
        self.book.tempi.list.count
    }

    fn entry(&self, state: usize) -> u64 {
        if state == 0 { 0 } else { TOO_MUCH }
    }

    fn write_local(&self, step: Step, local: &mut [u64]) {
        fill(&self.book, step.kinds, step.gap, local);
    }

    fn row_before(&self, _step: Step, local: &[u64], after: &[u64], row: &mut [u64]) {
        let (start, tempi) = row.split_at_mut(1);
        tempi.copy_from_slice(local);
        add(&after[1..], tempi);
        start[0] = least_of(tempi).unwrap_or(TOO_MUCH);
        shift(self.book.tempi.list.as_slice(), self.book.change, tempi);
    }

    fn row_after(&self, _step: Step, local: &[u64], before: &[u64], row: &mut [u64]) {
        let (start, tempi) = row.split_at_mut(1);
        start[0] = TOO_MUCH;
        tempi.copy_from_slice(&before[1..]);
        // Words that no desk left may hold more.
        lower(TOO_MUCH, tempi);
        shift(self.book.tempi.list.as_slice(), self.book.change, tempi);
        lower(before[0], tempi);
        add(local, tempi);
    }

    fn blank() -> Read {
        Read { kind: 0, tempo: 0 }
    }

    fn first_met(&self, state: usize, step: Step, after: &[u64], cost: u64) -> Option<Read> {
        let before = state.checked_sub(1);
        fit::first_met(&self.book, step.kinds, before, step.gap, &after[1..], cost)
    }

    fn next_state(&self, _state: usize, _step: Step, read: Read) -> usize {
        usize::from(read.tempo) + 1
    }
}

// How many words are kept of so many gaps, or of as many as a reading may have.
pub fn kept_words(book: &Book, gaps: usize) -> usize
    ensures { result ≡ kept_size (book_of book.now) (min gaps 255) }
{
    let tempi = book.tempi.list.count;
    gaps.min(MOST_GAPS) * (2 * tempi + 1) + tempi + 1
}

// How many words the rows from the last gap on take, of so many gaps or as many as a reading may have.
pub fn row_words(book: &Book, gaps: usize) -> usize
    ensures { result ≡ rows_size (book_of book.now) (min gaps 255) }
{
    (gaps.min(MOST_GAPS) + 1) * (book.tempi.list.count + 1)
}

// Writes at the front of `kept` what is kept where there is no gap, and says how many words that takes; nothing where it
// doesn't fit.
pub fn keep_start(book: &Book, kept: &mut [u64]) -> Option<usize>
    ensures value { result ≡ room (kept_rows (book_of book.now) []) kept.old }
    ensures after { kept.new ≡ written (kept_rows (book_of book.now) []) kept.old }
{
    model::keep_start(&Plain { book: *book }, kept)
}

// Keeps one gap more, behind what is kept of the `done` gaps before it, and says how many words are kept then; nothing
// where they don't fit. Words that don't start with what is kept of so many gaps mean nothing after it.
pub fn keep_gap(book: &Book, done: usize, gap: u32, kept: &mut [u64]) -> Option<usize>
    requires { gap < 16777216 }
    ensures value { result ≡ pick (nat_le (kept_size (book_of book.now) (done + 1)) (length kept.old)) (Some (kept_size (book_of book.now) (done + 1))) None }
    ensures after { MatchOption result (kept.new ≡ kept.old) (λ _. (gs : List ℕ) → length gs ≡ done → Short gs → StartsWith (kept_rows (book_of book.now) gs) kept.old → kept.new ≡ written (kept_rows (book_of book.now) (gs ++ gap ∷ [])) kept.old) }
{
    let kinds = BitSet::full();
    model::keep_step(&Plain { book: *book }, done, Step { gap, kinds }, kept)
}

// What the gaps that are kept, `done` of them, cost at least; none where fewer words are there than are kept of so many.
pub fn kept_cost(book: &Book, done: usize, kept: &[u64]) -> Option<u64>
    ensures test { is_some result ≡ nat_le (kept_size (book_of book.now) done) (length kept.now) }
    ensures value { (gs : List ℕ) → length gs ≡ done → Short gs → StartsWith (kept_rows (book_of book.now) gs) kept.now → result ≡ Some (least (book_of book.now) 0 gs) }
{
    model::kept_cost(&Plain { book: *book }, done, kept)
}

// Reads the gaps that are kept so that they cost that, the first such reading; and writes at the front of `words` what
// the gaps from each one on cost after each tempo. Nothing where these rows don't fit, or where fewer words are there than
// are kept of so many gaps.
pub fn first_reading(
    book: &Book,
    steps: &Listed<Step, MOST_GAPS>,
    kept: &[u64],
    words: &mut [u64],
) -> Option<Reading>
    requires { Free (items steps.now) }
    ensures value { StartsWith (kept_rows (book_of book.now) (gaps_of (items steps.now))) kept.now → option_map reading_of result ≡ option_map (λ _. reading (book_of book.now) 0 (gaps_of (items steps.now))) (room (rows (book_of book.now) (gaps_of (items steps.now))) words.old) }
    ensures short { (nat_le (kept_size (book_of book.now) (length (items steps.now))) (length kept.now) && nat_le (rows_size (book_of book.now) (length (items steps.now))) (length words.old)) ≡ false → (result ≡ None) × (words.new ≡ words.old) }
    ensures after { StartsWith (kept_rows (book_of book.now) (gaps_of (items steps.now))) kept.now → words.new ≡ written (rows (book_of book.now) (gaps_of (items steps.now))) words.old }
{
    let model = Plain { book: *book };
    let size = write_suffix_rows(&model, steps.as_slice(), kept, words)?;
    model::first_reading(&model, steps, &words[..size], 0)
}

// The least that all gaps cost is one number by the rows from the first gap on, by those from the last gap on, and by
// both where they meet, after any gap.
pub fn rows_meet_stands()
    ensures { RowsMeet }
{}

// Adds costs to those of a row; no sum passes `TOO_MUCH`.
fn add(costs: &[u64], row: &mut [u64])
    requires { length row.old ≡ length costs.now }
    ensures { (t : ℕ) → t < length row.new → slice_index row.new t ≡ min (slice_index row.old t + slice_index costs.now t) too_much }
{
    for t in 0..row.len() {
        row[t] = row[t].saturating_add(costs[t]).min(TOO_MUCH);
    }
}

// Lowers each cost of a row to `cost`, where that is less.
fn lower(cost: u64, row: &mut [u64])
    ensures { (t : ℕ) → t < length row.new → slice_index row.new t ≡ min (slice_index row.old t) cost }
{
    for t in 0..row.len() {
        row[t] = row[t].min(cost);
    }
}

#[cfg(test)]
mod tests;
