// The kinds of a book, in the order in which they are told.
ghost use Rattle.std.specs.Prelude.{◌≡◌, ◌<◌, ◌&&◌, is_some, IfSome, nat_le, nat_lt};

use crate::kind::Kind;
use crate::listed::Listed;

// How many kinds a book may have.
pub const MOST_KINDS: usize = 32;

// At least one.
#[derive(Clone, Copy)]
pub struct Kinds {
    pub list: Listed<Kind, MOST_KINDS>,
    ghost some: { 0 < list.count },
}

impl Kinds {
    // The first `count` of `all`.
    pub fn new(all: [Kind; MOST_KINDS], count: usize) -> Option<Kinds>
        ensures test { is_some result ≡ (nat_lt 0 count && nat_le count 32) }
        ensures value { IfSome result (λ k. (k.list.all ≡ all) × (k.list.count ≡ count)) }
    {
        Kinds::from_list(Listed::new(all, count)?)
    }

    pub fn from_list(list: Listed<Kind, MOST_KINDS>) -> Option<Kinds>
        ensures test { is_some result ≡ nat_lt 0 list.count }
        ensures value { IfSome result (λ k. k.list ≡ list) }
    {
        if list.count < 1 {
            return None;
        }
        Some(Kinds { list })
    }
}
