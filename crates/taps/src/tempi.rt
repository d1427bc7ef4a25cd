// The tempi of a book: how many ms a beat takes, each larger than the one before.
ghost use Rattle.std.specs.Prelude.{◌≡◌, ◌<◌, true, ◌&&◌, take, is_some, IfSome, nat_le, nat_lt};
ghost use Rattle.taps.specs.Items.{items};
ghost use Rattle.taps.specs.Promise.{good_tempi};

use crate::listed::Listed;

// How many tempi a book may have.
pub const MOST_TEMPI: usize = 64;
// The fewest ms for a beat: 600 beats in a minute.
pub const FASTEST: u16 = 100;
// The most ms for a beat: 15 beats in a minute.
pub const SLOWEST: u16 = 4000;

// At least one, each within bounds and larger than the one before.
#[derive(Clone, Copy)]
pub struct Tempi {
    pub list: Listed<u16, MOST_TEMPI>,
    ghost some: { 0 < list.count },
    ghost rising: { good_tempi (items list) ≡ true },
}

impl Tempi {
    // The first `count` of `all`.
    pub fn new(all: [u16; MOST_TEMPI], count: usize) -> Option<Tempi>
        ensures test { is_some result ≡ ((nat_lt 0 count && nat_le count 64) && good_tempi (take count all)) }
        ensures value { IfSome result (λ t. (t.list.all ≡ all) × (t.list.count ≡ count)) }
    {
        Tempi::from_list(Listed::new(all, count)?)
    }

    pub fn from_list(list: Listed<u16, MOST_TEMPI>) -> Option<Tempi>
        ensures test { is_some result ≡ (nat_lt 0 list.count && good_tempi (items list)) }
        ensures value { IfSome result (λ t. t.list ≡ list) }
    {
        if list.count < 1 || !are_good(list.as_slice()) {
            return None;
        }
        Some(Tempi { list })
    }
}

// Whether each tempo is within bounds and larger than the one before: where they rise, the first and the last tell of all.
fn are_good(tempi: &[u16]) -> bool
    ensures { result ≡ good_tempi tempi.now }
{
    tempi.is_sorted_by(|a, b| a < b)
        && tempi.first().is_none_or(|first| FASTEST <= *first)
        && tempi.last().is_none_or(|last| *last <= SLOWEST)
}
