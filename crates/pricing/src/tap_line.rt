// A line of tap times, as a desk would take them.
ghost use Rattle.std.specs.Prelude.{◌≡◌, Some, Ok, Err, MatchResult};
ghost use Rattle.pricing.specs.TapLine.{taps_in_line};
ghost use Rattle.pricing.specs.Values.{times_of, untaken_of, untaken_text};

use crate::tap_list::Taps;
use std::error::Error;
use std::fmt;
use taps::refusal::Refusal;
use tokens::split_token;

// The first tap of a line that is not taken, by its number from 0.
#[derive(Clone, Copy, PartialEq, Eq, Debug)]
pub struct Untaken {
    pub tap: usize,
    pub why: Why,
}

// Why it is not taken.
#[derive(Clone, Copy, PartialEq, Eq, Debug)]
pub enum Why {
    NoNumber,
    Refused(Refusal),
}

// The taps that a line's tokens are, each of them a call to a desk with room for 256; or the first that is not taken.
pub fn parse_taps(line: &[u8]) -> Result<Taps, Untaken>
    ensures { MatchResult result (λ t. taps_in_line line.now ≡ Ok (times_of t)) (λ e. taps_in_line line.now ≡ Err (untaken_of e)) }
{
    let mut taps = Taps::new();
    let mut rest = line;
    while let Some((token, behind)) = split_token(rest) {
        taps.add(token)?;
        rest = behind;
    }
    Ok(taps)
}

impl fmt::Display for Untaken {
    ghost output = { λ untaken. Some (untaken_text untaken) };

    fn fmt<W: fmt::Write>(&self, f: &mut fmt::Formatter<W>) -> fmt::Result {
        let tap = self.tap;
        match self.why {
            Why::NoNumber => write!(f, "tap {tap}, counted from 0, is no number"),
            Why::Refused(refusal) => write!(f, "tap {tap}, counted from 0: {refusal}"),
        }
    }
}

impl Error for Untaken {}
