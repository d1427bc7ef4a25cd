// A book: the kinds and the tempi that a gap may be read as, and what a change of tempo costs for each ms.
// It holds its lists by value, so that opening a desk wants no memory of its own.
ghost use Rattle.std.specs.Prelude.{◌≡◌, ◌<◌, is_some, IfSome, nat_lt};

use crate::kinds::Kinds;
use crate::tempi::Tempi;

// The first cost of a change that is too large.
pub const CHANGE_END: u32 = 1 << 16;

#[derive(Clone, Copy)]
pub struct Book {
    pub kinds: Kinds,
    pub tempi: Tempi,
    pub change: u32,
    ghost cheap: { change < 65536 },
}

impl Book {
    pub fn new(kinds: Kinds, tempi: Tempi, change: u32) -> Option<Book>
        ensures test { is_some result ≡ nat_lt change 65536 }
        ensures value { IfSome result (λ b. (b.kinds ≡ kinds) × (b.tempi ≡ tempi) × (b.change ≡ change)) }
    {
        if change >= CHANGE_END {
            return None;
        }
        Some(Book {
            kinds,
            tempi,
            change,
        })
    }
}
