// Text cut into lines, lines into tokens, and numbers from digits.
//
// What the readers of text above are made of: `specs/Tokens.antt` defines which lines a text has, which tokens a line,
// and which number digits are. A line or a token is split off at a time, as a part of the text, and no memory is wanted.
// Text is bytes, so that what is no UTF-8 is only text that nobody understands. Read `split_line` first.
#![tactic(auto)]

ghost use Rattle.std.specs.Prelude.{◌≡◌, ◌<◌, ◌≤◌, ◌∷◌, [], length, suc, take, drop, IfNone, IfSome};
ghost use Rattle.std.specs.Char.{is_ascii_whitespace};
ghost use Rattle.std.specs.List.{position_or_len};
ghost use Rattle.tokens.specs.Laws.{NumberReads};
ghost use Rattle.tokens.specs.Tokens.{before, behind, is_byte, is_line_end, lines_in, number_in, tokens_in, visible};

// The first line, without its end, and what stands behind it; none where there is no text.
pub fn split_line(text: &[u8]) -> Option<(&[u8], &[u8])>
    ensures none { IfNone result (text.now ≡ []) }
    ensures value { IfSome result (λ p. (p.0.now ≡ before is_line_end text.now) × (p.1.now ≡ behind is_line_end text.now)) }
    ensures lines { IfSome result (λ p. lines_in text.now ≡ p.0.now ∷ lines_in p.1.now) }
    ensures less { IfSome result (λ p. length p.1.now < length text.now) }
{
    if text.is_empty() {
        return None;
    }
    Some(split_at_byte(text, b'\n'))
}

// The first token, and what stands behind the blank at its end; none where there are only blanks.
pub fn split_token(line: &[u8]) -> Option<(&[u8], &[u8])>
    ensures none { IfNone result (tokens_in line.now ≡ []) }
    ensures value { IfSome result (λ p. (p.0.now ≡ before is_ascii_whitespace (visible line.now)) × (p.1.now ≡ behind is_ascii_whitespace (visible line.now))) }
    ensures tokens { IfSome result (λ p. tokens_in line.now ≡ p.0.now ∷ tokens_in p.1.now) }
    ensures less { IfSome result (λ p. length p.1.now < length line.now) }
{
    let visible = line.trim_ascii_start();
    if visible.is_empty() {
        return None;
    }
    Some(cut(visible, token_size(visible)))
}

// What stands before the first of such bytes, and what behind it: nothing where there is none.
pub fn split_at_byte(text: &[u8], byte: u8) -> (&[u8], &[u8])
    ensures before { result.0.now ≡ before (is_byte byte) text.now }
    ensures behind { result.1.now ≡ behind (is_byte byte) text.now }
{
    cut(text, size_before(text, byte))
}

// How many bytes stand before the first of such bytes.
fn size_before(text: &[u8], byte: u8) -> usize
    ensures { result ≡ position_or_len (is_byte byte) text.now }
{
    let place = text.iter().position(|other| *other == byte);
    place.unwrap_or(text.len())
}

// How many bytes stand before the first blank.
fn token_size(text: &[u8]) -> usize
    ensures { result ≡ position_or_len is_ascii_whitespace text.now }
{
    let place = text.iter().position(|byte| byte.is_ascii_whitespace());
    place.unwrap_or(text.len())
}

// What stands before the byte at a place, and what behind it.
fn cut(text: &[u8], place: usize) -> (&[u8], &[u8])
    requires { place ≤ length text.now }
    ensures before { result.0.now ≡ take place text.now }
    ensures behind { result.1.now ≡ drop (suc place) text.now }
{
    let (before, rest) = text.split_at(place);
    match rest.split_first() {
        Some((_, behind)) => (before, behind),
        None => (before, rest),
    }
}

// A number in decimal digits; one that four bytes can't hold is taken for the largest that they can.
pub fn parse_number(digits: &[u8]) -> Option<u32>
    ensures { result ≡ number_in digits.now }
{
    if digits.is_empty() {
        return None;
    }
    let mut number: u32 = 0;
    for digit in digits {
        if !digit.is_ascii_digit() {
            return None;
        }
        number = number
            .saturating_mul(10)
            .saturating_add(u32::from(*digit - b'0'));
    }
    Some(number)
}

// What a number is printed as reads back.
pub fn number_stands()
    ensures { NumberReads }
{}

#[cfg(test)]
mod tests;
