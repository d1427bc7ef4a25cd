// A desk with a book, over borrowed words.
ghost use Rattle.std.specs.Prelude.{◌≡◌, ◌≤◌, [], take, Some, Ok, Err, IfErr, IfOk};
ghost use Rattle.std.specs.String.{string_bytes};
ghost use Rattle.taps.specs.Values.{answer_of, book_of, call_of};
ghost use Rattle.books.specs.Books.{book_in};
ghost use Rattle.books.specs.declared.book.TheConstants.{MOST_BYTES};
ghost use Rattle.session.specs.Layout.{asked};
ghost use Rattle.session.specs.Session.{IsDesk};
ghost use Rattle.lines.specs.Lines.{call_at};
ghost use Rattle.lines.specs.Values.{reply_of};

use crate::reply::{Reply, ReplyLine};
use books::book::{MOST_BYTES, encode_book};
use std::alloc::{AllocError, Global};
use taps::answer::Answer;
use taps::book::Book;
use taps::call::{Call, MOST_TAPS};
use taps::refusal::Refusal;
use text::call::parse_call;
use tokens::split_line;
use wire::answer::decode_answer;
use wire::call::encode_call;

// The most bytes that a call takes.
const CALL_SIZE: usize = 5;
// Two bytes for each tap and 16 more: room for any answer.
const ANSWER_SIZE: usize = 2 * MOST_TAPS + 16;

#[derive(Drop)]
pub struct BorrowedDesk<'a> {
    pub book: &'a Book,
    pub(crate) limit: usize,
    pub(crate) left: &'a mut [u64],
    pub(crate) right: &'a mut [u64],
    ghost desk: { IsDesk (book_of book.now) limit left.now right.now },
}

// How many words a desk with this book and limit asks for in each slice; or why there is none.
pub fn words_asked(book: &Book, limit: usize) -> Result<usize, Refusal>
    ensures { result ≡ asked (Some (book_of book.now)) limit }
{
    let (bytes, size) = book_bytes(book);
    session::words_asked(&bytes[..size], limit)
}

// A book's bytes, and how many they are.
fn book_bytes(book: &Book) -> ([u8; MOST_BYTES], usize)
    ensures few { result.1 ≤ MOST_BYTES }
    ensures read { book_in (take result.1 result.0) ≡ Some (book_of book.now) }
{
    let mut bytes = [0; MOST_BYTES];
    let size = encode_book(book, &mut bytes).unwrap();
    (bytes, size)
}

impl<'a> BorrowedDesk<'a> {
    ghost use Rattle.lines.specs.Borrowed.{Answers, IsAfter, IsAfterFirst, IsBest, IsOver, IsSame, IsStep, KeepsRest, TellsAll, next_answer, next_taps, next_text, open_check, taps_of};

    // Opens a desk over slices of at least as many words as are asked for; those behind them stay as they are. With a limit
    // above 256 none is opened.
    pub fn open(
        book: &'a Book,
        limit: usize,
        left: &'a mut [u64],
        right: &'a mut [u64],
    ) -> Result<BorrowedDesk<'a>, Refusal>
        ensures taken { IfOk result (λ _. open_check book.now limit left.old right.old ≡ Ok tt) }
        ensures book { IfOk result (λ d. (d.book.now ≡ book.now) × (d.limit ≡ limit)) }
        ensures slices { IfOk result (λ d. IsOver d left.entry right.entry) }
        ensures opened { IfOk result (IsAfter []) }
        ensures rest { IfOk result (λ d. KeepsRest d left.old right.old) }
        ensures refused { IfErr result (λ e. open_check book.now limit left.old right.old ≡ Err e) }
    {
        let (bytes, size) = book_bytes(book);
        session::open(&bytes[..size], limit, left, right)?;
        Ok(BorrowedDesk {
            book,
            limit,
            left,
            right,
        })
    }

    // Sends a call as bytes, and reads the bytes that it is answered by.
    pub fn ask(&mut self, call: Call) -> Answer
        ensures same { IsSame self.old self.new }
        ensures step { IsStep self.old (call_of call) (answer_of result) self.new }
        ensures taps { taps_of self.new ≡ next_taps self.old (call_of call) }
        ensures value { answer_of result ≡ next_answer self.old (call_of call) }
        ensures answers { Answers self.old (call_of call) (answer_of result) self.new }
        ensures best { IsBest self.old (call_of call) (answer_of result) }
    {
        let mut request = [0; CALL_SIZE];
        let mut bytes = [0; ANSWER_SIZE];
        let sent = encode_call(call, &mut request).unwrap();
        let told = session::call(self.left, self.right, &request[..sent], &mut bytes);
        decode_answer(&bytes[..told.unwrap()]).unwrap()
    }

    // Answers the line with this number; one that can't be read changes nothing.
    pub fn answer_line(&mut self, line: &[u8], number: usize) -> Reply
        ensures same { IsSame self.old self.new }
        ensures taps { taps_of self.new ≡ next_taps self.old (call_at number line.now) }
        ensures value { reply_of result ≡ next_answer self.old (call_at number line.now) }
        ensures answers { Answers self.old (call_at number line.now) (reply_of result) self.new }
    {
        let Some(call) = parse_call(line) else {
            return Reply::Unreadable(number);
        };
        Reply::Answered(self.ask(call))
    }

    // Answers the lines of a text, a line each. Where no memory is to be had for that, nothing is told, and the desk is as
    // it is after the calls of the first lines: of one at least, and at most of all.
    pub fn answer_lines(&mut self, alloc: Global, text: &[u8]) -> Result<String, AllocError>
        ensures same { IsSame self.old self.new }
        ensures value { IfOk result (λ told. string_bytes told ≡ next_text self.old text.now) }
        ensures answers { IfOk result (λ s. TellsAll self.old text.now (string_bytes s) self.new) }
        ensures untold { IfErr result (λ _. IsAfterFirst self.old text.now self.new) }
    {
        let book = self.book;
        let mut told = String::new(alloc);
        let mut rest = text;
        let mut number = 0;
        while let Some((line, behind)) = split_line(rest) {
            let reply = self.answer_line(line, number);
            let line = ReplyLine {
                book,
                reply: &reply,
            };
            writeln!(told, "{line}")?;
            rest = behind;
            number += 1;
        }
        Ok(told)
    }
}
