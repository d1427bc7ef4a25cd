// What the lines of a book tell: a kind, the tempi, the change.
ghost use Rattle.std.specs.Prelude.{◌≡◌, Some, None, if◌then◌else◌};
ghost use Rattle.std.specs.Option.{option_map};
ghost use Rattle.taps.specs.Promise.{good_kind};
ghost use Rattle.taps.specs.Values.{kind_of, tempi_of};
ghost use Rattle.tokens.specs.Tokens.{tokens_in};
ghost use Rattle.bookfile.specs.Books.{change_in, is_name, kind_in, tempi_in, ticks_in};
ghost use Rattle.bookfile.specs.Values.{numbers_of};

use taps::kind::Kind;
use taps::tempi::{MOST_TEMPI, Tempi};
use tokens::{parse_number, split_token};

// What a kind's line tells, within bounds or not.
#[derive(Clone, Copy)]
pub struct Numbers {
    pub ticks: u32,
    pub weight: u32,
}

impl Numbers {
    // The kind, where they are within bounds.
    pub fn kind(self) -> Option<Kind>
        ensures { option_map kind_of result ≡ (if good_kind (numbers_of self) then Some (numbers_of self) else None) }
    {
        Kind::new(u8::try_from(self.ticks).ok()?, self.weight)
    }
}

// The numbers of a line `NAME TICKS, weight WEIGHT`.
pub fn parse_kind(line: &[u8]) -> Option<Numbers>
    ensures { option_map numbers_of result ≡ kind_in (tokens_in line.now) }
{
    let (name, rest) = split_token(line)?;
    let (ticks, rest) = split_token(rest)?;
    let (word, rest) = split_token(rest)?;
    let (weight, rest) = split_token(rest)?;
    if split_token(rest).is_some() || !is_name(name) || word != b"weight".as_slice() {
        return None;
    }
    Some(Numbers {
        ticks: parse_ticks(ticks)?,
        weight: parse_number(weight)?,
    })
}

// Letters and dashes.
fn is_name(word: &[u8]) -> bool
    ensures { result ≡ is_name word.now }
{
    word.iter()
        .all(|byte| byte.is_ascii_alphabetic() || *byte == b'-')
        && word != b"change".as_slice()
}

// Digits with a comma right behind.
fn parse_ticks(word: &[u8]) -> Option<u32>
    ensures { result ≡ ticks_in word.now }
{
    parse_number(word.strip_suffix(b",".as_slice())?)
}

// The tempi that the tokens of a line's rest are, where all are numbers and good ones.
pub fn parse_tempi(words: &[u8]) -> Option<Tempi>
    ensures { option_map tempi_of result ≡ tempi_in (tokens_in words.now) }
{
    let mut all = [0; MOST_TEMPI];
    let mut count = 0;
    let mut rest = words;
    while let Some((word, behind)) = split_token(rest) {
        if count >= MOST_TEMPI {
            return None;
        }
        all[count] = u16::try_from(parse_number(word)?).ok()?;
        count += 1;
        rest = behind;
    }
    Tempi::new(all, count)
}

// The number of a line `change C`.
pub fn parse_change(line: &[u8]) -> Option<u32>
    ensures { result ≡ change_in (tokens_in line.now) }
{
    let (word, rest) = split_token(line)?;
    let (change, rest) = split_token(rest)?;
    if word != b"change".as_slice() || split_token(rest).is_some() {
        return None;
    }
    parse_number(change)
}
