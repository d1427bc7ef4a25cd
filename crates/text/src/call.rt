// Calls as lines: `tap TIME`, `back`, `cost` and `read`, with blanks around their tokens.
ghost use Rattle.std.specs.Prelude.{◌≡◌, Some};
ghost use Rattle.std.specs.Option.{option_map};
ghost use Rattle.taps.specs.Values.{call_of};
ghost use Rattle.text.specs.Lines.{call_in, call_text, word_in};

use std::fmt;
use taps::call::Call;
use tokens::{parse_number, split_token};

// The call that a line is. A time that four bytes can't hold is taken for the latest that they can, which is too late.
pub fn parse_call(line: &[u8]) -> Option<Call>
    ensures { option_map call_of result ≡ call_in line.now }
{
    let (word, rest) = split_token(line)?;
    let Some((time, rest)) = split_token(rest) else {
        return parse_word(word);
    };
    if word != b"tap".as_slice() || split_token(rest).is_some() {
        return None;
    }
    Some(Call::Tap(parse_number(time)?))
}

// The call that a single token is.
fn parse_word(word: &[u8]) -> Option<Call>
    ensures { option_map call_of result ≡ word_in word.now }
{
    match word {
        b"back" => Some(Call::Back),
        b"cost" => Some(Call::Cost),
        b"read" => Some(Call::Read),
        _ => None,
    }
}

// The line that a call is printed as.
#[derive(Clone, Copy)]
pub struct CallLine {
    pub call: Call,
}

impl fmt::Display for CallLine {
    ghost output = { λ line. Some (call_text (call_of line.call)) };

    fn fmt<W: fmt::Write>(&self, f: &mut fmt::Formatter<W>) -> fmt::Result {
        match self.call {
            Call::Tap(time) => write!(f, "tap {time}"),
            Call::Back => write!(f, "back"),
            Call::Cost => write!(f, "cost"),
            Call::Read => write!(f, "read"),
        }
    }
}
