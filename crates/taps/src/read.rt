// How gaps are read: one by a `Read`, all by a `Reading`.
ghost use Rattle.std.specs.Prelude.{◌≡◌, ◌<◌, ◌&&◌, is_some, IfSome, nat_lt};

use crate::call::MOST_TAPS;
use crate::kinds::MOST_KINDS;
use crate::listed::Listed;
use crate::tempi::MOST_TEMPI;

// How many gaps a reading may have.
pub const MOST_GAPS: usize = MOST_TAPS - 1;
// More than any reading of so many gaps costs. Where there is nothing to choose from, this stands for the cost; twice as
// much still fits, so that a sum of two costs can be cut back to it.
pub const TOO_MUCH: u64 = (1 << 63) - 1;

// A gap is read as a kind at a tempo, by their places in the book.
#[derive(Clone, Copy, PartialEq, Eq, Debug)]
pub struct Read {
    pub kind: u8,
    pub tempo: u8,
    ghost kind_within: { kind < 32 },
    ghost tempo_within: { tempo < 64 },
}

// How the gaps are read, from the first gap on.
pub type Reading = Listed<Read, MOST_GAPS>;

impl Read {
    pub fn new(kind: u8, tempo: u8) -> Option<Read>
        ensures test { is_some result ≡ (nat_lt kind 32 && nat_lt tempo 64) }
        ensures value { IfSome result (λ q. (q.kind ≡ kind) × (q.tempo ≡ tempo)) }
    {
        if usize::from(kind) >= MOST_KINDS || usize::from(tempo) >= MOST_TEMPI {
            return None;
        }
        Some(Read { kind, tempo })
    }
}
