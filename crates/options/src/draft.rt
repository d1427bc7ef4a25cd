// A command line as far as its words have been read, and what each word adds.
ghost use Rattle.std.specs.Prelude.{◌≡◌};
ghost use Rattle.options.specs.Options.{finish, limit_in, start, take_first, take_input, take_word};
ghost use Rattle.options.specs.Values.{asked_of, draft_of, request_of, told};

use crate::bad_option::BadOption;
use crate::request::{Asked, Request};
use taps::call::MOST_TAPS;
use tokens::parse_number;

#[derive(Clone, Copy)]
pub enum Draft<'a> {
    // The next word is an option or the input.
    AtAny(Request<'a>),
    // The next word is the book's file.
    AtBook(Request<'a>),
    // The next word is the limit.
    AtLimit(Request<'a>),
    // Help was asked for, and no word behind that counts.
    Help,
}

impl<'a> Draft<'a> {
    pub fn new() -> Draft<'a>
        ensures { draft_of result ≡ start }
    {
        Draft::AtAny(Request {
            book: None,
            limit: MOST_TAPS,
            input: None,
        })
    }

    pub fn take_word(self, word: &'a str, takes_limit: bool) -> Result<Draft<'a>, BadOption<'a>>
        ensures { told draft_of result ≡ take_word takes_limit (draft_of self.entry) word.now }
    {
        match self {
            Draft::AtAny(request) => take_first(request, word, takes_limit),
            Draft::AtBook(request) => Ok(Draft::AtAny(Request {
                book: Some(word),
                ..request
            })),
            Draft::AtLimit(request) => {
                let limit = parse_limit(word).ok_or(BadOption::BadLimit(word))?;
                Ok(Draft::AtAny(Request { limit, ..request }))
            }
            Draft::Help => Ok(Draft::Help),
        }
    }

    pub fn finish(self) -> Result<Asked<'a>, BadOption<'a>>
        ensures { told asked_of result ≡ finish (draft_of self.entry) }
    {
        match self {
            Draft::AtAny(request) => Ok(Asked::Run(request)),
            Draft::AtBook(_) => Err(BadOption::BookMissing),
            Draft::AtLimit(_) => Err(BadOption::LimitMissing),
            Draft::Help => Ok(Asked::Help),
        }
    }
}

// What a word adds where an option or the input may stand.
fn take_first<'a>(
    request: Request<'a>,
    word: &'a str,
    takes_limit: bool,
) -> Result<Draft<'a>, BadOption<'a>>
    ensures { told draft_of result ≡ take_first takes_limit (request_of request.entry) word.now }
{
    match word {
        "--help" | "-h" => Ok(Draft::Help),
        "--book" => Ok(Draft::AtBook(request)),
        "--limit" if takes_limit => Ok(Draft::AtLimit(request)),
        _ if word.starts_with('-') => Err(BadOption::Unknown(word)),
        _ => take_input(request, word),
    }
}

// The file that the program reads, where none was named yet.
fn take_input<'a>(request: Request<'a>, path: &'a str) -> Result<Draft<'a>, BadOption<'a>>
    ensures { told draft_of result ≡ take_input (request_of request.entry) path.now }
{
    if request.input.is_some() {
        return Err(BadOption::SecondFile);
    }
    Ok(Draft::AtAny(Request {
        input: Some(path),
        ..request
    }))
}

// How many taps are taken: a number of at most as many as a desk may hold.
pub fn parse_limit(text: &str) -> Option<usize>
    ensures { result ≡ limit_in text.now }
{
    let limit = parse_number(text.as_bytes())? as usize;
    (limit <= MOST_TAPS).then_some(limit)
}
