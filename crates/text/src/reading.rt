// Readings as lines: notes as in `12@500 6@500`, or `none` where there is no gap.
ghost use Rattle.std.specs.Prelude.{◌≡◌, ◌<◌, true, [], Some, IfOk, IfSome, ◌==◌};
ghost use Rattle.std.specs.Option.{option_map};
ghost use Rattle.std.specs.List.{position};
ghost use Rattle.std.specs.Result.{result_map_both};
ghost use Rattle.taps.specs.Readings.{in_book};
ghost use Rattle.taps.specs.Values.{book_of, read_of, reading_of, tempi_of};
ghost use Rattle.tokens.specs.Tokens.{tokens_in};
ghost use Rattle.text.specs.Notes as notes;
ghost use Rattle.text.specs.Notes.{note_in, notes_in, read_as, read_in, reading_in, unread_text};

use std::fmt;
use taps::book::Book;
use taps::listed::Listed;
use taps::read::{MOST_GAPS, Read, Reading};
use tokens::{parse_number, split_at_byte, split_token};

// Why a line is no reading of a book. A place is a token's, from 0; people are told it from 1.
#[derive(Clone, Copy, PartialEq, Eq, Debug)]
pub enum Unread {
    // The line has no token.
    Empty,
    // A token is not ticks and a tempo.
    NotANote(usize),
    // The book has no kind with so many ticks, or no such tempo.
    NotInBook(usize),
    // More notes than a reading may have.
    TooMany,
}

impl fmt::Display for Unread {
    ghost output = { λ unread. Some (unread_text unread) };

    fn fmt<W: fmt::Write>(&self, f: &mut fmt::Formatter<W>) -> fmt::Result {
        match *self {
            Unread::Empty => write!(f, "no notes"),
            Unread::NotANote(place) => write!(f, "word {} is not a note", place.saturating_add(1)),
            Unread::NotInBook(place) => {
                write!(f, "note {} is not in the book", place.saturating_add(1))
            }
            Unread::TooMany => write!(f, "more than 255 notes"),
        }
    }
}

// The reading that a line is. Of two kinds with as many ticks a note means the lighter one, as which it costs less.
pub fn parse_reading(book: &Book, line: &[u8]) -> Result<Reading, Unread>
    ensures value { result_map_both reading_of (λ e. e) result ≡ reading_in (book_of book.now) line.now }
    ensures within { IfOk result (λ r. in_book (book_of book.now) (reading_of r) ≡ true) }
{
    let (word, rest) = split_token(line).ok_or(Unread::Empty)?;
    if word == b"none".as_slice() && split_token(rest).is_none() {
        let all = [Read { kind: 0, tempo: 0 }; MOST_GAPS];
        return Ok(Listed { all, count: 0 });
    }
    parse_notes(book, line)
}

// The reading whose notes the tokens are.
fn parse_notes(book: &Book, line: &[u8]) -> Result<Reading, Unread>
    ensures { result_map_both reading_of (λ e. e) result ≡ notes_in (book_of book.now) [] (tokens_in line.now) }
{
    let mut all = [Read { kind: 0, tempo: 0 }; MOST_GAPS];
    let mut count = 0;
    let mut left = line;
    while let Some((word, rest)) = split_token(left) {
        if count == MOST_GAPS {
            return Err(Unread::TooMany);
        }
        all[count] = parse_read(book, count, word)?;
        count += 1;
        left = rest;
    }
    Ok(Listed { all, count })
}

// The read that the token at a place is.
fn parse_read(book: &Book, place: usize, word: &[u8]) -> Result<Read, Unread>
    ensures { result_map_both read_of (λ e. e) result ≡ read_in (book_of book.now) place word.now }
{
    let (ticks, tempo) = parse_note(word).ok_or(Unread::NotANote(place))?;
    find_read(book, ticks, tempo).ok_or(Unread::NotInBook(place))
}

// The ticks and the tempo that a token is.
fn parse_note(word: &[u8]) -> Option<(u32, u32)>
    ensures { result ≡ note_in word.now }
{
    let (ticks, tempo) = split_at_byte(word, b'@');
    Some((parse_number(ticks)?, parse_number(tempo)?))
}

// The read of so many ticks at a tempo.
fn find_read(book: &Book, ticks: u32, tempo: u32) -> Option<Read>
    ensures { option_map read_of result ≡ read_as (book_of book.now) (ticks, tempo) }
{
    let kind = lightest(book, ticks)?;
    let tempo = tempo_place(book, tempo)?;
    Some(Read {
        kind: kind as u8,
        tempo: tempo as u8,
    })
}

// The lightest kind with so many ticks, the first of those.
fn lightest(book: &Book, ticks: u32) -> Option<usize>
    ensures value { result ≡ notes.lightest (book_of book.now) ticks }
    ensures within { IfSome result (λ k. k < 32) }
{
    let kinds = book.kinds.list.as_slice();
    let mut found = None;
    for k in 0..kinds.len() {
        if u32::from(kinds[k].ticks) == ticks {
            found = Some(match found {
                Some(j) if kinds[j].weight <= kinds[k].weight => j,
                _ => k,
            });
        }
    }
    found
}

// The place of a tempo in the book.
fn tempo_place(book: &Book, tempo: u32) -> Option<usize>
    ensures value { result ≡ position (λ t. t == tempo) (tempi_of book.now.tempi) }
    ensures within { IfSome result (λ t. t < 64) }
{
    let tempi = book.tempi.list.as_slice();
    tempi.iter().position(|t| u32::from(*t) == tempo)
}
