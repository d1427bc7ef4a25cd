// Quick changes of tempo: for each tempo the least over all tempi, with what the change from each costs.
//
// A row has a cost for each tempo. `shift` makes of it, in place, the row whose entry at s is the least over all t of
// the entry at t and what the change between the two tempi costs: by one pass up and one pass down, which is two steps
// for each tempo, where trying every t for every s is one for each pair. (In the field's words: the distance transform
// of the row, under a distance that is linear in ms.) A change costs the same up and down, so the row may be of what
// follows its tempi or of what led to them. `first_source` finds for one tempo the first t that its least comes from.
// `specs/Shift.antt` has what they answer. Read `shift` first.
#![tactic(auto)]

ghost use Rattle.std.specs.Prelude.{◌≡◌, ◌-◌, ◌*◌, ◌^◌, ℕ, ◌<◌, ◌≤◌, length, All, slice_index};
ghost use Rattle.std.specs.List.Sorted.{IsStrictlyIncreasing};
ghost use Rattle.least.specs.Minima.{FirstBelow};
ghost use Rattle.shift.specs.Shift.{Fallen, Risen, Shifted, reached};

// Lowers each entry to the least that it costs to be at its tempo, reached from whichever tempo. No entry grows, so that
// whatever bound they have is kept.
pub fn shift(tempi: &[u16], change: u32, row: &mut [u64])
    requires size { length row.old ≡ length tempi.now }
    requires rising { IsStrictlyIncreasing tempi.now }
    requires small { All (λ v. v < 2 ^ 63) row.old }
    ensures least { Shifted change tempi.now row.old row.new }
    ensures kept { (s : ℕ) → s < length row.new → slice_index row.new s ≤ slice_index row.old s }
{
    rise(tempi, change, row);
    fall(tempi, change, row);
}

// The first place that the least at the place `at` comes from, of a row that is not shifted yet.
pub fn first_source(tempi: &[u16], change: u32, row: &[u64], at: usize) -> usize
    requires size { length row.now ≡ length tempi.now }
    requires place { at < length row.now }
    requires small { All (λ v. v < 2 ^ 63) row.now }
    ensures { FirstBelow (reached change tempi.now row.now at) (length row.now) result }
{
    let mut first = 0;
    let mut least = u64::MAX;
    for t in 0..row.len() {
        let cost = cost_from(tempi, change, row, at, t);
        if cost < least {
            first = t;
            least = cost;
        }
    }
    first
}

// What it costs to be at the place `at`, reached from `t`.
fn cost_from(tempi: &[u16], change: u32, row: &[u64], at: usize, t: usize) -> u64
    requires size { length row.now ≡ length tempi.now }
    requires places { (at < length row.now) × (t < length row.now) }
    requires small { slice_index row.now t < 2 ^ 63 }
    ensures value { result ≡ reached change tempi.now row.now at t }
    ensures small { result < 2 ^ 64 - 1 }
{
    row[t] + u64::from(change) * u64::from(tempi[at].abs_diff(tempi[t]))
}

// The pass up: each tempo by way of the one below it.
fn rise(tempi: &[u16], change: u32, row: &mut [u64])
    requires size { length row.old ≡ length tempi.now }
    requires rising { IsStrictlyIncreasing tempi.now }
    requires small { All (λ v. v < 2 ^ 63) row.old }
    ensures { Risen change tempi.now row.old row.new }
{
    for s in 1..row.len() {
        row[s] = row[s].min(row[s - 1] + step(change, tempi[s - 1], tempi[s]));
    }
}

// The pass down: each tempo by way of the one above it.
fn fall(tempi: &[u16], change: u32, row: &mut [u64])
    requires size { length row.old ≡ length tempi.now }
    requires rising { IsStrictlyIncreasing tempi.now }
    requires small { All (λ v. v < 2 ^ 63) row.old }
    ensures { Fallen change tempi.now row.old row.new }
{
    for s in (1..row.len()).rev() {
        row[s - 1] = row[s - 1].min(row[s] + step(change, tempi[s - 1], tempi[s]));
    }
}

// What a change between a tempo and a higher one costs.
fn step(change: u32, low: u16, high: u16) -> u64
    requires { low ≤ high }
    ensures value { result ≡ change * (high - low) }
    ensures small { result < 2 ^ 48 }
{
    u64::from(change) * u64::from(high - low)
}

#[cfg(test)]
mod tests;
