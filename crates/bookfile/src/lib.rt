// A book from the lines of a file.
//
// `parse_book` answers the book that a text is, or its first fault with the line where it stands. `specs/Books.antt`
// defines both for every text, line by line; lines, tokens and numbers are those of the crate `tokens`. Read
// `draft.rt` first.
#![tactic(auto)]

ghost use Rattle.std.specs.Prelude.{◌≡◌};
ghost use Rattle.taps.specs.Values.{book_of};
ghost use Rattle.bookfile.specs.Books.{book_in};
ghost use Rattle.bookfile.specs.Laws.{BooksGood, BooksReturn};
ghost use Rattle.bookfile.specs.Values.{told};

pub mod draft;
pub mod fault;
pub mod line;
#[cfg(test)]
mod tests;

use draft::Draft;
use fault::Fault;
use taps::book::Book;
use tokens::split_line;

// The book that a text is; else the number of its first line that does not fit, from 0, and the reason.
pub fn parse_book(text: &[u8]) -> Result<Book, Fault>
    ensures { told book_of result ≡ book_in text.now }
{
    let mut draft = Draft::new();
    let mut number = 0;
    let mut rest = text;
    while let Some((line, behind)) = split_line(rest) {
        draft = draft.take_line(line).map_err(|reason| Fault {
            line: number,
            reason,
        })?;
        number += 1;
        rest = behind;
    }
    draft.finish(number)
}

// Only good books are read.
pub fn books_good_stands()
    ensures { BooksGood }
{}

// Every good book can be written as lines, and reads back.
pub fn books_return_stands()
    ensures { BooksReturn }
{}
