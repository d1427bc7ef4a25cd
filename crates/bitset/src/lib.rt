// Sets of numbers below 32, as the bits of a number: bit i stands for the number i.
//
// A gap may be read as the kinds of such a set. Each function is pinned by which numbers its set has (`member`), which
// fixes every bit. Read `has` first.
#![tactic(auto)]

ghost use Rattle.std.specs.Prelude.{◌≡◌, ℕ, ◌^◌, ◌<◌, ◌≤◌, true, false, ◌&&◌, not, ◌==◌, MatchOption};
ghost use Rattle.bitset.specs.Members.{member};

// The first number that is in no set.
pub const MEMBERS_END: usize = u32::BITS as usize;

#[derive(Clone, Copy, PartialEq, Eq, Debug)]
pub struct BitSet {
    pub bits: u32,
}

impl BitSet {
    // All numbers below 32.
    pub fn full() -> BitSet
        ensures { (i : ℕ) → i < 32 → member result.bits i ≡ true }
    {
        BitSet { bits: u32::MAX }
    }

    // The number `i` alone; none where it is 32 or more.
    pub fn only(i: usize) -> BitSet
        ensures { (j : ℕ) → j < 32 → member result.bits j ≡ (j == i) }
    {
        BitSet { bits: bit(i) }
    }

    // The same numbers but `i`.
    pub fn without(self, i: usize) -> BitSet
        ensures { (j : ℕ) → member result.bits j ≡ (member self.bits j && not (j == i)) }
    {
        BitSet {
            bits: self.bits & !bit(i),
        }
    }

    pub fn has(self, i: usize) -> bool
        ensures { result ≡ member self.bits i }
    {
        self.bits & bit(i) != 0
    }

    // The smallest number, if there is one.
    pub fn first(self) -> Option<usize>
        ensures { MatchOption result ((i : ℕ) → member self.bits i ≡ false) (λ k. (k < 32) × (member self.bits k ≡ true) × ((i : ℕ) → i < k → member self.bits i ≡ false)) }
    {
        (self.bits != 0).then(|| self.bits.trailing_zeros() as usize)
    }
}

// The bit that stands for `i`, if one does.
fn bit(i: usize) -> u32
    ensures within { i < 32 → result ≡ 2 ^ i }
    ensures past { 32 ≤ i → result ≡ 0 }
{
    if i < MEMBERS_END { 1 << i } else { 0 }
}

#[cfg(test)]
mod tests;
