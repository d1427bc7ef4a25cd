// A kind of note: a note value in ticks, twelve to a beat, with a prior cost.
ghost use Rattle.std.specs.Prelude.{◌≡◌, ◌<◌, ◌≤◌, ◌&&◌, is_some, IfSome, nat_le, nat_lt};

// Eight beats.
pub const MOST_TICKS: u8 = 96;
// The first weight that is too large.
pub const WEIGHT_END: u32 = 1 << 24;

#[derive(Clone, Copy, PartialEq, Eq, Debug)]
pub struct Kind {
    pub ticks: u8,
    pub weight: u32,
    ghost some: { 1 ≤ ticks },
    ghost short: { ticks ≤ 96 },
    ghost light: { weight < 16777216 },
}

impl Kind {
    pub fn new(ticks: u8, weight: u32) -> Option<Kind>
        ensures test { is_some result ≡ ((nat_le 1 ticks && nat_le ticks 96) && nat_lt weight 16777216) }
        ensures value { IfSome result (λ k. (k.ticks ≡ ticks) × (k.weight ≡ weight)) }
    {
        if ticks < 1 || ticks > MOST_TICKS || weight >= WEIGHT_END {
            return None;
        }
        Some(Kind { ticks, weight })
    }
}
