// Models of readings, and tables of what gaps cost over any of them.
//
// A model says how gaps may be read: in which states a reading may start and at what cost; what each gap may be read as
// in each state, at what cost, and in which state that leaves it. It is a general reader of the crate `least`, as ghost
// members of the trait `Trellis`; its methods make a row of costs, one for each state, from the row beside it. Rows from
// the first gap on are kept while gaps come and are taken back; rows from the last gap on are made from what is kept,
// and a walk over them tells the first best reading. What a kind or a tempo is, nothing here asks. `specs/Rows.antt` says
// which numbers a row has and which are kept, `specs/Walk.antt` which reading rows tell, and `specs/Laws.antt` what a
// model owes. Read `Trellis` first, and then `keep_step`, `write_suffix_rows` and `first_reading`.
#![tactic(auto)]

ghost use Rattle.std.specs.Prelude.{◌≡◌, ℕ, ◌+◌, ◌*◌, ◌++◌, [], ◌∷◌, List, Some, None, ◌<◌, ◌≤◌, All, Bool, length, map, nat_le, ◌&&◌, MatchOption};
ghost use Rattle.std.specs.Option.{is_some, option_map};
ghost use Rattle.least.specs.Minima.{Among, capped};
ghost use Rattle.least.specs.Readers.{Reader, States, begin, least};
ghost use Rattle.taps.specs.Items.{items};
ghost use Rattle.taps.specs.Readings.{pick, too_much};
ghost use Rattle.octets.specs.Bytes.{StartsWith, room, written};
ghost use Rattle.model.specs.Rows.{backward, for_prefixes, forward, kept_number, kept_rows, prefix_row, suffix_rows};
ghost use Rattle.model.specs.Walk.{first_met, walked};
ghost use Rattle.model.specs.Laws.{Backward, Ending, Exact, Forward, Lawful, Meeting, Starting, Walked};

use bitset::BitSet;
use least::least_of;
use taps::listed::Listed;
use taps::read::TOO_MUCH;

// A gap, with the kinds that it may be read as.
#[derive(Clone, Copy)]
pub struct Step {
    pub gap: u32,
    pub kinds: BitSet,
    ghost short: { gap < 16777216 },
}

// A model of readings, which the field calls a trellis. (`Model` is a word of the language.)
pub trait Trellis {
    ghost use Rattle.model.specs.declared.Step.{Step};

    // What a step is read as.
    type Read: Copy;

    // what the definitions have for it
    ghost Choice: { Type 0 };

    ghost choice_of: { Self.Read → Choice };

    // which readings there are, and what they cost
    ghost reader: { Self → Reader Step ℕ Choice };

    // in which states, the numbers below `count`
    ghost states: { (m : Self) → States (reader m) };

    ghost count: { Self → ℕ };

    // how much a step may add at most, of those that are fair
    ghost most: { Self → ℕ };

    ghost fair: { Self → Step → Bool };

    // how many numbers tell what a step costs by itself, and which; rows are made of them
    ghost local_size: { Self → ℕ };

    ghost local_costs: { Self → Step → List ℕ };

    ghost local_sized: { (m : Self) (g : Step) → length (local_costs m g) ≡ local_size m };

    fn state_count(&self) -> usize
        ensures { result ≡ count self.now };

    fn local_count(&self) -> usize
        ensures { result ≡ local_size self.now };

    // What it costs to start in a state; `TOO_MUCH` where no reading starts there.
    fn entry(&self, state: usize) -> u64
        ensures { result ≡ capped too_much (begin (reader self.now) (states self.now) state) };

    // Writes what a step costs by itself.
    fn write_local(&self, step: Step, local: &mut [u64])
        requires { length local.old ≡ local_size self.now }
        ensures { local.new ≡ local_costs self.now step };

    // Writes the row before a step, from what the step costs by itself and the row after it.
    fn row_before(&self, step: Step, local: &[u64], after: &[u64], row: &mut [u64])
        requires local { length local.now ≡ local_size self.now }
        requires after { length after.now ≡ count self.now }
        requires row { length row.old ≡ count self.now }
        requires small { All (λ v. v ≤ too_much) after.now }
        ensures row { local.now ≡ local_costs self.now step → row.new ≡ backward (reader self.now) (count self.now) step after.now }
        ensures small { All (λ v. v ≤ too_much) row.new };

    // Writes the row after a step, from what the step costs by itself and the row before it.
    fn row_after(&self, step: Step, local: &[u64], before: &[u64], row: &mut [u64])
        requires local { length local.now ≡ local_size self.now }
        requires before { length before.now ≡ count self.now }
        requires row { length row.old ≡ count self.now }
        ensures { local.now ≡ local_costs self.now step → row.new ≡ forward (reader self.now) (states self.now) (count self.now) step before.now };

    // What stands in an array where no step has been read.
    fn blank() -> Self::Read;

    // The first choice with which a step and what follows it cost just `cost`; `after` is the row after the step.
    fn first_met(&self, state: usize, step: Step, after: &[u64], cost: u64) -> Option<Self::Read>
        requires state { state < count self.now }
        requires size { length after.now ≡ count self.now }
        ensures { option_map choice_of result ≡ first_met (reader self.now) state step after.now cost };

    // The state that a step leaves which is read so.
    fn next_state(&self, state: usize, step: Step, read: Self::Read) -> usize
        requires state { state < count self.now }
        requires among { Among (choice_of read) ((reader self.now).choices state step) }
        ensures { result ≡ (reader self.now).next state step (choice_of read) };

    ghost lawful: { (m : Self) → Lawful (reader m) (states m) (count m) (fair m) (most m) };
}

// Writes at the front of `kept` the row before the first step, and says how many numbers these are. Nothing is written
// where they don't fit.
#[tactic(auto, using(crate::proofs::Numbers::row_size))]
pub fn keep_start<M: Trellis>(model: &M, kept: &mut [u64]) -> Option<usize>
    ensures value { result ≡ room (prefix_row (M.reader model.now) (M.states model.now) (M.count model.now) []) kept.old }
    ensures after { kept.new ≡ written (prefix_row (M.reader model.now) (M.states model.now) (M.count model.now) []) kept.old }
{
    let width = model.state_count();
    let (row, _) = kept.split_at_mut_checked(width)?;
    for s in 0..row.len() {
        row[s] = model.entry(s);
    }
    Some(width)
}

// Keeps one step more, behind what is kept of the `done` steps before it: what it costs by itself, and the row after it.
// Says how many numbers are kept then; nothing is written where they don't fit. Words that don't start with what is kept
// of so many steps mean nothing after it.
pub fn keep_step<M: Trellis>(model: &M, done: usize, step: Step, kept: &mut [u64]) -> Option<usize>
    ensures value { result ≡ pick (nat_le (kept_number (M.count model.now) (M.local_size model.now) (done + 1)) (length kept.old)) (Some (kept_number (M.count model.now) (M.local_size model.now) (done + 1))) None }
    ensures after { MatchOption result (kept.new ≡ kept.old) (λ _. (gs : List Step) → length gs ≡ done → StartsWith (kept_rows (M.reader model.now) (M.states model.now) (M.count model.now) (M.local_costs model.now) gs) kept.old → kept.new ≡ written (kept_rows (M.reader model.now) (M.states model.now) (M.count model.now) (M.local_costs model.now) (gs ++ step ∷ [])) kept.old) }
{
    let width = model.state_count();
    let size = model.local_count();
    let end = kept_size(model, done)?;
    let (front, behind) = kept.split_at_mut_checked(end)?;
    let more = size.checked_add(width)?;
    let (part, _) = behind.split_at_mut_checked(more)?;
    let (local, row) = part.split_at_mut(size);
    let (_, before) = front.split_at(end - width);
    model.write_local(step, local);
    model.row_after(step, local, before, row);
    Some(end + more)
}

// What all steps cost at least, by the row after the last one, of as many steps as are kept; none where fewer words are
// there than are kept of so many.
pub fn kept_cost<M: Trellis>(model: &M, done: usize, kept: &[u64]) -> Option<u64>
    ensures test { is_some result ≡ nat_le (kept_number (M.count model.now) (M.local_size model.now) done) (length kept.now) }
    ensures value { (gs : List Step) → length gs ≡ done → StartsWith (kept_rows (M.reader model.now) (M.states model.now) (M.count model.now) (M.local_costs model.now) gs) kept.now → result ≡ Some (capped too_much (least (M.reader model.now) gs)) }
{
    let end = kept_size(model, done)?;
    let (front, _) = kept.split_at_checked(end)?;
    let (_, row) = front.split_at(end - model.state_count());
    Some(least_of(row).unwrap_or(TOO_MUCH))
}

// Writes at the front of `words`, for the steps from each one on, the least that they cost from each state on, and last
// the row after all steps; and says how many numbers these are. What each step costs by itself is read in what is kept
// of the steps. Nothing is written where the rows don't fit, or where fewer words are there than are kept of the steps.
pub fn write_suffix_rows<M: Trellis>(
    model: &M,
    steps: &[Step],
    kept: &[u64],
    words: &mut [u64],
) -> Option<usize>
    ensures test { is_some result ≡ (nat_le (kept_number (M.count model.now) (M.local_size model.now) (length steps.now)) (length kept.now) && nat_le ((length steps.now + 1) * M.count model.now) (length words.old)) }
    ensures rows { StartsWith (kept_rows (M.reader model.now) (M.states model.now) (M.count model.now) (M.local_costs model.now) steps.now) kept.now → (result ≡ room (suffix_rows (M.reader model.now) (M.count model.now) steps.now) words.old) × (words.new ≡ written (suffix_rows (M.reader model.now) (M.count model.now) steps.now) words.old) }
    ensures size { MatchOption result (words.new ≡ words.old) (λ n. (n ≡ (length steps.now + 1) * M.count model.now) × (n ≤ length words.new)) }
{
    let (kept, _) = kept.split_at_checked(kept_size(model, steps.len())?)?;
    let size = (steps.len() + 1).checked_mul(model.state_count())?;
    let (rows, _) = words.split_at_mut_checked(size)?;
    fill_suffix_rows(model, steps, kept, rows);
    Some(size)
}

// Reads the steps from a state on, by a row for each of them and one after them all, as `write_suffix_rows` writes them:
// each as the first choice with which no more is spent than the row before it says; none where there is no such choice.
pub fn first_reading<M: Trellis, const N: usize>(
    model: &M,
    steps: &Listed<Step, N>,
    rows: &[u64],
    state: usize,
) -> Option<Listed<M::Read, N>>
    requires rows { length rows.now ≡ (length (items steps.now) + 1) * M.count model.now }
    requires state { state < M.count model.now }
    ensures { option_map (λ l. map M.choice_of (items l)) result ≡ walked (M.reader model.now) (M.count model.now) state (items steps.now) rows.now }
{
    let width = model.state_count();
    let mut all = [M::blank(); N];
    let mut state = state;
    let mut rows = rows;
    for (i, step) in steps.as_slice().iter().enumerate() {
        let (row, after) = rows.split_at(width);
        let read = model.first_met(state, *step, &after[..width], row[state])?;
        state = model.next_state(state, *step, read);
        all[i] = read;
        rows = after;
    }
    let count = steps.count;
    Some(Listed { all, count })
}

// A step from row to row is one of the general reader, and the number that stands for the least of all is the least
// itself where the steps are fair and not too many. That number is the same by the row before the first step, by the row
// after the last, and by the two rows between any steps. What a walk over the rows reads is what the general reader
// tells: the first best reading.
pub fn rows_stand<G, C>()
    ensures backward { Backward G C }
    ensures forward { Forward G C }
    ensures starting { Starting G C }
    ensures ending { Ending G C }
    ensures meeting { Meeting G C }
    ensures exact { Exact G C }
    ensures walked { Walked G C }
{}

// The rows from the last step on: each is one step from the one after it.
fn fill_suffix_rows<M: Trellis>(model: &M, steps: &[Step], kept: &[u64], words: &mut [u64])
    requires kept { length kept.now ≡ kept_number (M.count model.now) (M.local_size model.now) (length steps.now) }
    requires rows { length words.old ≡ (length steps.now + 1) * M.count model.now }
    ensures small { All (λ v. v ≤ too_much) words.new }
    ensures rows { (done : List Step) → kept.now ≡ for_prefixes (prefix_row (M.reader model.now) (M.states model.now) (M.count model.now)) (M.local_costs model.now) done steps.now → words.new ≡ suffix_rows (M.reader model.now) (M.count model.now) steps.now }
{
    let Some((step, rest)) = steps.split_first() else {
        words.fill(0);
        return;
    };
    let width = model.state_count();
    let (_, behind) = kept.split_at(width);
    let (local, kept) = behind.split_at(model.local_count());
    let (row, rows) = words.split_at_mut(width);
    fill_suffix_rows(model, rest, kept, rows);
    model.row_before(*step, local, &rows[..width], row);
}

// How many numbers are kept of so many steps; none where that is too many for a slice.
fn kept_size<M: Trellis>(model: &M, steps: usize) -> Option<usize>
    ensures { MatchOption result (18446744073709551616 ≤ kept_number (M.count model.now) (M.local_size model.now) steps) (λ n. n ≡ kept_number (M.count model.now) (M.local_size model.now) steps) }
{
    let rows = steps.checked_mul(model.state_count())?;
    let local = steps.checked_mul(model.local_count())?;
    rows.checked_add(local)?.checked_add(model.state_count())
}
