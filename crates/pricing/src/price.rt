// The price of two lines: taps, and a reading of them.
ghost use Rattle.std.specs.Prelude.{◌≡◌, Some, Ok, Err, MatchResult, IfOk};
ghost use Rattle.taps.specs.Values.{book_of, reading_of};
ghost use Rattle.text.specs.Notes.{reading_in};
ghost use Rattle.pricing.specs.Priced.{both, priced_in};
ghost use Rattle.pricing.specs.TapLine.{taps_in_line};
ghost use Rattle.pricing.specs.Values.{times_of};
ghost use Rattle.pricing.specs.Reasons.{unpriced_of, unpriced_text};

use crate::costs::{Costs, WrongCount};
use crate::tap_line::{Untaken, parse_taps};
use std::error::Error;
use std::fmt;
use taps::book::Book;
use text::reading::{Unread, parse_reading};
use tokens::{split_line, split_token};

// Why lines have no price.
#[derive(Clone, Copy, PartialEq, Eq, Debug)]
pub enum Unpriced {
    // There is no line.
    NoTaps,
    // There is one line.
    NoReading,
    // Behind the second line stands something.
    More,
    Taps(Untaken),
    Reading(Unread),
    Count(WrongCount),
}

// What the taps of the first line cost, read as the second line says.
pub fn price<'a>(book: &'a Book, input: &[u8]) -> Result<Costs<'a>, Unpriced>
    ensures value { MatchResult result (λ c. priced_in (book_of book.now) input.now ≡ Ok (times_of c.taps, reading_of c.reading)) (λ e. priced_in (book_of book.now) input.now ≡ Err (unpriced_of e)) }
    ensures book { IfOk result (λ c. c.book.now ≡ book.now) }
{
    let Some((times, rest)) = split_line(input) else {
        return Err(Unpriced::NoTaps);
    };
    let Some((notes, rest)) = split_line(rest) else {
        return Err(Unpriced::NoReading);
    };
    if split_token(rest).is_some() {
        return Err(Unpriced::More);
    }
    price_lines(book, times, notes)
}

// What the taps of one line cost, read as another line says.
fn price_lines<'a>(book: &'a Book, times: &[u8], notes: &[u8]) -> Result<Costs<'a>, Unpriced>
    ensures value { MatchResult result (λ c. both (taps_in_line times.now) (reading_in (book_of book.now) notes.now) ≡ Ok (times_of c.taps, reading_of c.reading)) (λ e. both (taps_in_line times.now) (reading_in (book_of book.now) notes.now) ≡ Err (unpriced_of e)) }
    ensures book { IfOk result (λ c. c.book.now ≡ book.now) }
{
    let taps = parse_taps(times).map_err(|untaken| Unpriced::Taps(untaken))?;
    let reading = parse_reading(book, notes).map_err(|unread| Unpriced::Reading(unread))?;
    Costs::new(book, taps, reading).map_err(|counts| Unpriced::Count(counts))
}

impl fmt::Display for Unpriced {
    ghost output = { λ unpriced. Some (unpriced_text unpriced) };

    fn fmt<W: fmt::Write>(&self, f: &mut fmt::Formatter<W>) -> fmt::Result {
        match self {
            Unpriced::NoTaps => write!(
                f,
                "a line of tap times is wanted, and a line with a reading"
            ),
            Unpriced::NoReading => write!(
                f,
                "a line with a reading is wanted behind that of the taps"
            ),
            Unpriced::More => write!(f, "nothing may stand behind the line with the reading"),
            Unpriced::Taps(untaken) => write!(f, "{untaken}"),
            Unpriced::Reading(unread) => write!(f, "{unread}"),
            Unpriced::Count(counts) => write!(f, "{counts}"),
        }
    }
}

impl Error for Unpriced {}
