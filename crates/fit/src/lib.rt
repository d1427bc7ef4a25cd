// What each kind of note costs at each tempo, for one gap.
//
// A gap costs how far twelve times it is from the kind's ticks times the tempo, and the kind's weight; a change of tempo
// counts in `first_met` alone. `fill` writes the least over the kinds for each tempo, as a row of the dynamic program
// wants it, and `first_met` finds the read that attains a cost. Both take the set of kinds that the gap may be read as,
// and a gap below 2^24 ms, so that what it costs as a kind fits 29 bits. `specs/Fit.antt` says what they answer. Read
// `fill` first.
#![tactic(auto)]

ghost use Rattle.std.specs.Prelude.{◌≡◌, ◌+◌, ◌*◌, ℕ, ◌<◌, min, length, pos, ◌-ℤ◌, IfSome, ◌==◌, slice_index};
ghost use Rattle.std.specs.Option.{option_map};
ghost use Rattle.taps.specs.Readings.{apart, before_of, pick, too_much};
ghost use Rattle.taps.specs.Values.{book_of, read_of, tempi_of};
ghost use Rattle.fit.specs.Fit.{Wanted, change_cost, first_meeting, fits};
ghost use Rattle.fit.specs.Laws.{Earliest, Lowest, Takes};

use bitset::BitSet;
use taps::book::Book;
use taps::kind::Kind;
use taps::read::{Read, TOO_MUCH};
use taps::tempi::MOST_TEMPI;

// More than any gap costs as a kind: what stands for no kind, and for a cost that no kind meets.
const NONE: u32 = u32::MAX;

// For each tempo the least that the gap costs as one of the kinds in `set`; `TOO_MUCH` where none is.
pub fn fill(book: &Book, set: BitSet, gap: u32, row: &mut [u64])
    requires gap { gap < 16777216 }
    requires row { length row.old ≡ length (tempi_of book.now.tempi) }
    ensures { row.new ≡ fits (book_of book.now) set.bits gap }
{
    let kinds = book.kinds.list.as_slice();
    let tempi = book.tempi.list.as_slice();
    // Half as wide as the row's numbers: the processor takes twice as many at once.
    let mut all = [0; MOST_TEMPI];
    let least = &mut all[..tempi.len()];
    least.fill(NONE);
    for k in 0..kinds.len() {
        if set.has(k) {
            lower(least, kinds[k], tempi, gap);
        }
    }
    widen(least, row);
}

// The first kind in `set`, and with it the first tempo, with which the gap and what follows it cost just `cost`. `rest`
// is what follows costs after each tempo, and `before` the place of the tempo before, if there is one.
pub fn first_met(
    book: &Book,
    set: BitSet,
    before: Option<usize>,
    gap: u32,
    rest: &[u64],
    cost: u64,
) -> Option<Read>
    requires before { IfSome before (λ s. s < length (tempi_of book.now.tempi)) }
    requires gap { gap < 16777216 }
    requires rest { length rest.now ≡ length (tempi_of book.now.tempi) }
    ensures { option_map read_of result ≡ first_meeting (book_of book.now) set.bits (before_of before) gap rest.now cost }
{
    let kinds = book.kinds.list.as_slice();
    let tempi = book.tempi.list.as_slice();
    let mut all = [0; MOST_TEMPI];
    let wanted = &mut all[..tempi.len()];
    want(book, before, rest, cost, wanted);
    let mut found = None;
    // The kinds that can still be the first: one that meets the cost at no tempo is taken out.
    let mut open = set;
    'kinds: while let Some(k) = open.first() {
        if k >= kinds.len() {
            break;
        }
        for t in 0..wanted.len() {
            if fit(kinds[k], tempi[t], gap) == wanted[t] {
                found = Some(Read {
                    kind: k as u8,
                    tempo: t as u8,
                });
                break 'kinds;
            }
        }
        open = open.without(k);
    }
    found
}

// A row has the least of the kinds allowed, and what is found is the first read that meets the cost: where all kinds are
// allowed, the one that the definition of the reading told takes.
pub fn fit_stands()
    ensures lowest { Lowest }
    ensures earliest { Earliest }
    ensures takes { Takes }
{}

// What the gap costs as a kind at a tempo, but for the change.
pub fn fit(kind: Kind, tempo: u16, gap: u32) -> u32
    requires { gap < 16777216 }
    ensures value { result ≡ apart (12 * gap) (kind.ticks * tempo) + kind.weight }
    ensures small { result < 536870912 }
{
    off(kind, tempo, gap).unsigned_abs() + kind.weight
}

// How much longer twelve gaps are than the kind at the tempo: below 0 where they are shorter.
fn off(kind: Kind, tempo: u16, gap: u32) -> i32
    requires { gap < 16777216 }
    ensures { result ≡ pos (12 * gap) -ℤ pos (kind.ticks * tempo) }
{
    12 * gap as i32 - i32::from(kind.ticks) * i32::from(tempo)
}

// Lowers each entry to what the gap costs as one kind at that tempo, where that is less.
fn lower(row: &mut [u32], kind: Kind, tempi: &[u16], gap: u32)
    requires gap { gap < 16777216 }
    requires row { length row.old ≡ length tempi.now }
    ensures { (t : ℕ) → t < length row.new → slice_index row.new t ≡ min (slice_index row.old t) (apart (12 * gap) (kind.ticks * slice_index tempi.now t) + kind.weight) }
{
    for t in 0..row.len() {
        row[t] = row[t].min(fit(kind, tempi[t], gap));
    }
}

// The same costs as numbers of a row.
fn widen(least: &[u32], row: &mut [u64])
    requires { length row.old ≡ length least.now }
    ensures { (t : ℕ) → t < length row.new → slice_index row.new t ≡ pick (slice_index least.now t == 4294967295) too_much (slice_index least.now t) }
{
    for t in 0..row.len() {
        row[t] = if least[t] == NONE {
            TOO_MUCH
        } else {
            u64::from(least[t])
        };
    }
}

// For each tempo what a gap is to cost there by itself, so that it costs just `cost` with the change of tempo and what
// follows.
fn want(book: &Book, before: Option<usize>, rest: &[u64], cost: u64, wanted: &mut [u32])
    requires before { IfSome before (λ s. s < length (tempi_of book.now.tempi)) }
    requires rest { length rest.now ≡ length (tempi_of book.now.tempi) }
    requires wanted { length wanted.old ≡ length rest.now }
    ensures { (t : ℕ) → t < length wanted.new → Wanted (slice_index wanted.new t) cost (slice_index rest.now t) (change_cost (book_of book.now) (before_of before) t) }
{
    let tempi = book.tempi.list.as_slice();
    // Where there is no tempo before, a change costs nothing.
    let (from, change) = match before {
        Some(s) => (tempi[s], book.change),
        None => (0, 0),
    };
    for t in 0..wanted.len() {
        let changed = u64::from(change) * u64::from(from.abs_diff(tempi[t]));
        wanted[t] = left_of(cost, rest[t], changed);
    }
}

// What is left of a cost, without what follows and the change.
fn left_of(cost: u64, rest: u64, changed: u64) -> u32
    ensures { Wanted result cost rest changed }
{
    let Some(left) = cost.checked_sub(rest) else {
        return NONE;
    };
    let Some(left) = left.checked_sub(changed) else {
        return NONE;
    };
    u32::try_from(left).unwrap_or(NONE)
}

#[cfg(test)]
mod tests;
