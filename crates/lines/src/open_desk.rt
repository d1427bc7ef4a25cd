// A book, and the memory of a desk that was opened with it.
ghost use Rattle.std.specs.Prelude.{◌≡◌, ℕ, ◌<◌, ◌≤◌, List, [], ◌∷◌, ◌++◌, length, take, Some, Err, IfErr, IfOk, is_ok, nat_le};
ghost use Rattle.std.specs.String.{string_bytes};
ghost use Rattle.taps.specs.Calls as calls;
ghost use Rattle.taps.specs.Calls.{after, answer, answers, ran};
ghost use Rattle.taps.specs.Values.{answer_of, book_of, call_of};
ghost use Rattle.answers.specs.Laws.{Best};
ghost use Rattle.tokens.specs.Tokens.{lines_in};
ghost use Rattle.session.specs.Layout.{asked};
ghost use Rattle.session.specs.Session.{Came, IsDesk, desk, memory, taps_held};
ghost use Rattle.lines.specs.Lines.{answers_text, call_at, calls_in};
ghost use Rattle.lines.specs.Values.{reply_of};

use crate::borrowed_desk::BorrowedDesk;
use crate::reply::Reply;
use books::book::{MOST_BYTES, encode_book};
use session::{MOST_WORDS, open};
use std::alloc::{AllocError, Global};
use taps::answer::Answer;
use taps::book::Book;
use taps::call::{Call, MOST_TAPS};
use taps::refusal::Refusal;

#[derive(Drop)]
pub struct OpenDesk {
    pub book: Book,
    limit: usize,
    left: [u64; MOST_WORDS],
    right: [u64; MOST_WORDS],
    ghost desk: { IsDesk (book_of book) limit left right },
}

impl OpenDesk {
    // With a limit above 256 none is opened.
    pub fn new(book: Book, limit: usize) -> Result<OpenDesk, Refusal>
        ensures taken { is_ok result ≡ nat_le limit 256 }
        ensures book { IfOk result (λ d. (d.book ≡ book) × (d.limit ≡ limit)) }
        ensures opened { IfOk result (λ d. Came (book_of book) limit [] d.left d.right) }
        ensures refused { IfErr result (λ e. asked (Some (book_of book)) limit ≡ Err e) }
    {
        if limit > MOST_TAPS {
            return Err(Refusal::LimitTooLarge);
        }
        let mut bytes = [0; MOST_BYTES];
        let mut left = [0; MOST_WORDS];
        let mut right = [0; MOST_WORDS];
        let size = encode_book(&book, &mut bytes).unwrap();
        open(&bytes[..size], limit, &mut left, &mut right).unwrap();
        Ok(OpenDesk {
            book,
            limit,
            left,
            right,
        })
    }

    // Sends a call as bytes, and reads the bytes that it is answered by.
    pub fn ask(&mut self, call: Call) -> Answer
        ensures same { (self.new.book ≡ self.old.book) × (self.new.limit ≡ self.old.limit) }
        ensures next { memory (book_of self.old.book) self.old.limit self.new.left self.new.right ≡ desk.next (memory (book_of self.old.book) self.old.limit self.old.left self.old.right) (call_of call) }
        ensures says { answer_of result ≡ desk.says (memory (book_of self.old.book) self.old.limit self.old.left self.old.right) (call_of call) }
        ensures taps { taps_held (book_of self.old.book) self.old.limit self.new.left ≡ after self.old.limit (taps_held (book_of self.old.book) self.old.limit self.old.left) (call_of call) }
        ensures value { answer_of result ≡ answer (book_of self.old.book) self.old.limit (taps_held (book_of self.old.book) self.old.limit self.old.left) (call_of call) }
        ensures answers { (cs : List calls.Call) → Came (book_of self.old.book) self.old.limit cs self.old.left self.old.right → (answer_of result ≡ answer (book_of self.old.book) self.old.limit (ran self.old.limit [] cs) (call_of call)) × Came (book_of self.old.book) self.old.limit (cs ++ call_of call ∷ []) self.new.left self.new.right }
        ensures best { Best (book_of self.old.book) (taps_held (book_of self.old.book) self.old.limit self.old.left) (call_of call) (answer_of result) }
    {
        let mut desk = BorrowedDesk {
            book: &self.book,
            limit: self.limit,
            left: &mut self.left,
            right: &mut self.right,
        };
        desk.ask(call)
    }

    // Answers the line with this number; one that can't be read changes nothing.
    pub fn answer_line(&mut self, line: &[u8], number: usize) -> Reply
        ensures same { (self.new.book ≡ self.old.book) × (self.new.limit ≡ self.old.limit) }
        ensures taps { taps_held (book_of self.old.book) self.old.limit self.new.left ≡ after self.old.limit (taps_held (book_of self.old.book) self.old.limit self.old.left) (call_at number line.now) }
        ensures value { reply_of result ≡ answer (book_of self.old.book) self.old.limit (taps_held (book_of self.old.book) self.old.limit self.old.left) (call_at number line.now) }
        ensures answers { (cs : List calls.Call) → Came (book_of self.old.book) self.old.limit cs self.old.left self.old.right → (reply_of result ≡ answer (book_of self.old.book) self.old.limit (ran self.old.limit [] cs) (call_at number line.now)) × Came (book_of self.old.book) self.old.limit (cs ++ call_at number line.now ∷ []) self.new.left self.new.right }
    {
        let mut desk = BorrowedDesk {
            book: &self.book,
            limit: self.limit,
            left: &mut self.left,
            right: &mut self.right,
        };
        desk.answer_line(line, number)
    }

    // Answers the lines of a text, a line each. Where no memory is to be had for that, nothing is told, and the desk is as
    // it is after the calls of the first lines: of one at least, and at most of all.
    pub fn answer_lines(&mut self, alloc: Global, text: &[u8]) -> Result<String, AllocError>
        ensures same { (self.new.book ≡ self.old.book) × (self.new.limit ≡ self.old.limit) }
        ensures value { IfOk result (λ told. string_bytes told ≡ answers_text (book_of self.old.book) (answers (book_of self.old.book) self.old.limit (taps_held (book_of self.old.book) self.old.limit self.old.left) (calls_in 0 (lines_in text.now)))) }
        ensures answers { (cs : List calls.Call) → Came (book_of self.old.book) self.old.limit cs self.old.left self.old.right → IfOk result (λ told. (string_bytes told ≡ answers_text (book_of self.old.book) (answers (book_of self.old.book) self.old.limit (ran self.old.limit [] cs) (calls_in 0 (lines_in text.now)))) × Came (book_of self.old.book) self.old.limit (cs ++ calls_in 0 (lines_in text.now)) self.new.left self.new.right) }
        ensures untold { (cs : List calls.Call) → Came (book_of self.old.book) self.old.limit cs self.old.left self.old.right → IfErr result (λ _. (n : ℕ) × (0 < n) × (n ≤ length (lines_in text.now)) × Came (book_of self.old.book) self.old.limit (cs ++ take n (calls_in 0 (lines_in text.now))) self.new.left self.new.right) }
    {
        let mut desk = BorrowedDesk {
            book: &self.book,
            limit: self.limit,
            left: &mut self.left,
            right: &mut self.right,
        };
        desk.answer_lines(alloc, text)
    }
}
