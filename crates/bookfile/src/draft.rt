// A book as far as its lines have been read, and what each line adds.
ghost use Rattle.std.specs.Prelude.{◌≡◌, [], map};
ghost use Rattle.taps.specs.Items.{items};
ghost use Rattle.taps.specs.Values.{book_of, kind_of, kinds_of, tempi_of};
ghost use Rattle.tokens.specs.Tokens.{tokens_in};
ghost use Rattle.bookfile.specs.Books.{add_change, add_kind, add_tempi, change_in, finish, is_comment, kind_in, listing, take_line, tempi_in};
ghost use Rattle.bookfile.specs.Values.{draft_of, told};

use crate::fault::{Fault, Reason};
use crate::line::{parse_change, parse_kind, parse_tempi};
use taps::book::Book;
use taps::kind::Kind;
use taps::kinds::{Kinds, MOST_KINDS};
use taps::listed::Listed;
use taps::tempi::Tempi;
use tokens::split_token;

#[derive(Clone, Copy)]
pub enum Draft {
    // The kinds so far.
    Listing(Listed<Kind, MOST_KINDS>),
    // All kinds, and the tempi.
    Timed(Kinds, Tempi),
    Whole(Book),
}

impl Draft {
    pub fn new() -> Draft
        ensures { draft_of result ≡ listing [] }
    {
        let blank = Kind {
            ticks: 1,
            weight: 0,
        };
        Draft::Listing(Listed {
            all: [blank; MOST_KINDS],
            count: 0,
        })
    }

    // What a line adds: nothing, where it has no token or is a comment.
    pub fn take_line(self, line: &[u8]) -> Result<Draft, Reason>
        ensures { told draft_of result ≡ take_line (draft_of self) line.now }
    {
        let Some((first, behind)) = split_token(line) else {
            return Ok(self);
        };
        if is_comment(first) {
            return Ok(self);
        }
        match self {
            Draft::Listing(kinds) => {
                if first == b"tempi".as_slice() {
                    add_tempi(kinds, behind)
                } else {
                    add_kind(kinds, line)
                }
            }
            Draft::Timed(kinds, tempi) => add_change(kinds, tempi, line),
            Draft::Whole(_) => Err(Reason::Behind),
        }
    }

    // The book, where the text ends behind so many lines.
    pub fn finish(self, lines: usize) -> Result<Book, Fault>
        ensures { told book_of result ≡ finish (draft_of self) lines }
    {
        match self {
            Draft::Whole(book) => Ok(book),
            Draft::Listing(_) | Draft::Timed(_, _) => Err(Fault {
                line: lines,
                reason: Reason::Unfinished,
            }),
        }
    }
}

// A token that a comment begins with.
fn is_comment(token: &[u8]) -> bool
    ensures { result ≡ is_comment token.now }
{
    token.starts_with(b"#")
}

// One kind more, from its line.
fn add_kind(kinds: Listed<Kind, MOST_KINDS>, line: &[u8]) -> Result<Draft, Reason>
    ensures { told draft_of result ≡ add_kind (map kind_of (items kinds)) (kind_in (tokens_in line.now)) }
{
    let numbers = parse_kind(line).ok_or(Reason::NoKind)?;
    let count = kinds.count;
    if count >= MOST_KINDS {
        return Err(Reason::TooManyKinds);
    }
    let kind = numbers.kind().ok_or(Reason::KindBounds)?;
    let mut all = kinds.all;
    all[count] = kind;
    Ok(Draft::Listing(Listed {
        all,
        count: count + 1,
    }))
}

// The tempi behind the kinds.
fn add_tempi(kinds: Listed<Kind, MOST_KINDS>, words: &[u8]) -> Result<Draft, Reason>
    ensures { told draft_of result ≡ add_tempi (map kind_of (items kinds)) (tempi_in (tokens_in words.now)) }
{
    let kinds = Kinds::from_list(kinds).ok_or(Reason::KindsMissing)?;
    let tempi = parse_tempi(words).ok_or(Reason::BadTempi)?;
    Ok(Draft::Timed(kinds, tempi))
}

// The whole book, from its last line.
fn add_change(kinds: Kinds, tempi: Tempi, line: &[u8]) -> Result<Draft, Reason>
    ensures { told draft_of result ≡ add_change (kinds_of kinds) (tempi_of tempi) (change_in (tokens_in line.now)) }
{
    let change = parse_change(line).ok_or(Reason::BadChange)?;
    let book = Book::new(kinds, tempi, change).ok_or(Reason::BadChange)?;
    Ok(Draft::Whole(book))
}
