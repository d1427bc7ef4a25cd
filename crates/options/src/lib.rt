// What a program is asked on its command line: `[--book FILE] [--limit N] [FILE]`, in any order, and `--help`.
//
// The programs `desk` and `price` take these alike. `parse_options` answers what words ask for, or the first that can't be
// understood; `specs/Options.antt` defines both for every list of words. What can't be done is an error with a message for
// people, and a book that is no book is told with its line; what a book's lines mean is promised by the crate `bookfile`.
// Read `request.rt` first.
#![tactic(auto)]

ghost use Rattle.std.specs.Prelude.{◌≡◌, ◌≤◌, Ok, false, map, IfOk, IfSome, IsOk};
ghost use Rattle.std.specs.String.{string_bytes};
ghost use Rattle.options.specs.Options.{asked_in, help};
ghost use Rattle.options.specs.Fetched.{CanBeAsked, IsAsked, IsSet};
ghost use Rattle.options.specs.Values.{request_of};

pub mod bad_option;
mod draft;
pub mod request;
#[cfg(test)]
mod tests;

use anyhow::{Result, anyhow};
use bookfile::parse_book;
use request::{Asked, Request, parse_options};
use std::{env, fs};
use taps::book::Book;
use taps::built_in::built_in_book;

#[derive(Drop)]
pub struct Options {
    pub book: Book,
    // How many taps are taken.
    pub limit: usize,
    // The file that the program reads; standard input where none is named.
    pub input: Option<String>,
}

// What the program is asked for; none where it is asked for help.
pub fn read_options(rt: &HostRuntime, takes_limit: bool) -> Result<Option<Options>>
    ensures asked { IfOk result (λ options. CanBeAsked takes_limit options) }
    ensures limit { IfOk result (λ asked. IfSome asked (λ options. options.limit ≤ 256)) }
    ensures unlimited { takes_limit ≡ false → IfOk result (λ asked. IfSome asked (λ options. options.limit ≡ 256)) }
{
    let words = arguments(rt)?;
    options_of(rt, words.as_slice(), takes_limit)
}

// All that stands behind the program's name.
fn arguments(rt: &HostRuntime) -> Result<Vec<String>> {
    let mut args = env::args(rt)?;
    let _ = args.next();
    Ok(args.collect(rt.alloc())?)
}

// What words ask for, with the book that they name; none where they ask for help.
pub fn options_of(rt: &HostRuntime, words: &[String], takes_limit: bool) -> Result<Option<Options>>
    ensures asked { IfOk result (λ options. IsAsked options (asked_in takes_limit (map string_bytes words.now))) }
    ensures help { asked_in takes_limit (map string_bytes words.now) ≡ Ok help → IsOk result }
{
    let asked = parse_options(words, takes_limit).map_err(|bad| anyhow!("{bad}"))?;
    match asked {
        Asked::Help => Ok(None),
        Asked::Run(request) => Ok(Some(fetch(rt, request)?)),
    }
}

// The book is read; the input is left to the program.
fn fetch(rt: &HostRuntime, request: Request<'_>) -> Result<Options>
    ensures set { IfOk result (λ options. IsSet options (request_of request.entry)) }
{
    let book = match request.book {
        Some(path) => read_book(rt, path)?,
        None => built_in_book(),
    };
    let input = match request.input {
        Some(path) => Some(String::from_str(rt.alloc(), path)?),
        None => None,
    };
    Ok(Options {
        book,
        limit: request.limit,
        input,
    })
}

fn read_book(rt: &HostRuntime, path: &str) -> Result<Book> {
    let text = fs::read(rt, path).map_err(|error| anyhow!("{path}: {error}"))?;
    parse_book(text.as_slice()).map_err(|fault| anyhow!("{path}: {fault}"))
}
