// Taps in a list by value, taken one after another as a desk takes them.
ghost use Rattle.std.specs.Prelude.{◌≡◌, length};
ghost use Rattle.onsets.specs.Laws.{Sound};
ghost use Rattle.onsets.specs.Onsets.{taps_in};

use crate::tap_line::{Untaken, Why};
use onsets::{MOST_WORDS, append, count};
use tokens::parse_number;

// At most 256, each later than the one before and before 2^24 ms.
#[derive(Clone, Copy)]
pub struct Taps {
    words: [u64; MOST_WORDS],
    ghost whole: { length words ≡ 257 },
    ghost sound: { Sound 256 (taps_in words) },
}

impl Taps {
    ghost use Rattle.std.specs.Prelude.{[], Ok, Err, MatchResult, OnErr};
    ghost use Rattle.std.specs.List.{slice_get};
    ghost use Rattle.taps.specs.Calls.{gaps};
    ghost use Rattle.tokens.specs.Tokens.{number_in};
    ghost use Rattle.pricing.specs.TapLine.{tap_then};
    ghost use Rattle.pricing.specs.Values.{times_of, untaken_of};

    // No taps.
    pub fn new() -> Taps
        ensures { times_of result ≡ [] }
    {
        Taps {
            words: [0; MOST_WORDS],
        }
    }

    // Takes a token as the next tap, or tells why not.
    pub fn add(&mut self, token: &[u8]) -> Result<(), Untaken>
        ensures value { MatchResult result (λ _. tap_then (times_of self.old) (number_in token.now) ≡ Ok (times_of self.new)) (λ e. tap_then (times_of self.old) (number_in token.now) ≡ Err (untaken_of e)) }
        ensures unchanged { OnErr result (self.new ≡ self.old) }
    {
        let tap = count(&self.words);
        let Some(time) = parse_number(token) else {
            return Err(Untaken {
                tap,
                why: Why::NoNumber,
            });
        };
        match append(&mut self.words, time) {
            Ok(_) => Ok(()),
            Err(refusal) => Err(Untaken {
                tap,
                why: Why::Refused(refusal),
            }),
        }
    }

    // How many gaps are between the taps.
    #[tactic(auto, using(taps::proofs::Between::length_gaps))]
    pub fn gap_count(&self) -> usize
        ensures { result ≡ length (gaps (times_of self.now)) }
    {
        count(&self.words).saturating_sub(1)
    }

    // The gap after the tap numbered `i`, if another tap follows it.
    pub fn gap(&self, i: usize) -> Option<u32>
        ensures { result ≡ slice_get (gaps (times_of self.now)) i }
    {
        let gap = onsets::gap(&self.words, i)?;
        Some(gap as u32)
    }
}
