// Minima, and the theory of best readings on which every layer above rests.
//
// `least_of` and `first_least` find the least number of a row and its first place. The other functions have no code: each
// has in its contract a law of the general reader (`specs/Readers.antt`), which chooses at each step one of the choices
// that its state has, at a cost, and goes on in the state after it. Steps, states and choices are of any type, G, S and C;
// nothing here knows of notes. `specs/Laws.antt` has the laws. Read `told_stands` first.
#![tactic(auto)]

ghost use Rattle.least.specs.Minima.{Least, Entry, FirstLeast};
ghost use Rattle.least.specs.Laws.{ToldFrom, Told, Only, Tried, Fewer, Imitates, Meets, Begins};

// The least number of a row.
pub fn least_of(row: &[u64]) -> Option<u64>
    ensures { Least (Entry row.now) result }
{
    row.iter().copied().min()
}

// The first place of the least number of a row: of equal numbers the earlier one stays.
pub fn first_least(row: &[u64]) -> Option<usize>
    ensures { FirstLeast row.now result }
{
    row.iter()
        .enumerate()
        .reduce(|best, next| if next.1 < best.1 { next } else { best })
        .map(|(i, _)| i)
}

// What is told is the first best reading, and what it costs is the least: from any state on, and of all.
pub fn told_stands<G, S, C>()
    ensures from { ToldFrom G S C }
    ensures all { Told G S C }
    ensures only { Only G S C }
{}

// It is the first of the cheapest where all readings are tried in their order.
pub fn tried_stands<G, S, C>()
    ensures { Tried G S C }
{}

// With fewer choices nothing costs less.
pub fn fewer_stands<G, S, C>()
    ensures { Fewer G S C }
{}

// A reader that can imitate another at so much more for each step costs at most so much more.
pub fn imitates_stands<G, S, C, H, T, D>()
    ensures { Imitates G S C H T D }
{}

// Prefix costs, computed from the first step on, and suffix costs meet at every step.
pub fn meets_stands<G, S, C>()
    ensures { Meets G S C }
{}

// The first best reading begins as the first best of those that end in the state that it passes through.
pub fn begins_stands<G, S, C>()
    ensures { Begins G S C }
{}

#[cfg(test)]
mod tests;
