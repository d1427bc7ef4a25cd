// A desk over lent memory: opened with a book and a limit of taps, and then called, by bytes.
//
// All that it holds lies in two slices of words, half of its memory each, which are lent for every call: in the left what
// it was opened with, the taps, and what is kept of them; in the right the rows that tell the best reading.
// `specs/Layout.antt` says which word holds what; `specs/Session.antt`, what a call leaves in every word and is answered,
// as one desk of the definitions, `desk`; and the contracts of `open` and `call`, that they do just that. That this desk
// answers every list of calls by the definitions, which try all readings, is `Right`, which `desk_stands` stands for, and
// the clause `answers` of `call` says it of each call. Nothing is asked of the memory: words that can't be read as a
// desk's are left as they are. Read `open` and `call` first.
#![tactic(auto)]

ghost use Rattle.std.specs.Prelude.{◌≡◌, ◌≤◌, false, ◌&&◌, nat_le, min, [], ◌∷◌, ◌++◌, length, take, drop, Some, Ok, Err, MatchOption, MatchResult, IfOk, IfErr, IfNone, IfSome};
ghost use Rattle.std.specs.Option.{option_map};
ghost use Rattle.octets.specs.Bytes.{written};
ghost use Rattle.taps.specs.Promise.{RefusalKeeps, Right};
ghost use Rattle.taps.specs.Readings as readings;
ghost use Rattle.taps.specs.Values.{book_of};
ghost use Rattle.books.specs.Books.{book_in};
ghost use Rattle.wire.specs.Wire.{answer_bytes};
ghost use Rattle.onsets.specs.Onsets.{taps_in, words_after};
ghost use Rattle.answers.specs.Answered.{Answerable, Held, adds, reads_rows};
ghost use Rattle.answers.specs.Laws.{BestIn};
ghost use Rattle.session.specs.Layout.{asked, desk_in, half, kept_words, left_opened, right_opened, room_for, taps_words};
ghost use Rattle.session.specs.Session.{Came, IsDesk, OfCalls, OfDesk, answer_room, bytes_answered, bytes_said, desk, kept_held, left_after, memory, right_after, said, sent, taps_held, unanswered, words_held};
ghost use Rattle.session.specs.Laws.{Spares, StaysDesk, TellsBest};
ghost use Rattle.session.specs.Values.{setup_of};

mod head;
mod setup;

use answers::answer_bytes;
use books::book::decode_book;
use head::{HEAD_WORDS, read_head, write_head};
use onsets::is_sound;
use plain::MOST_KEPT_WORDS;
use setup::Setup;
use taps::call::MOST_TAPS;
use taps::refusal::Refusal;

// As many words as any desk asks for in each slice.
pub const MOST_WORDS: usize = HEAD_WORDS + onsets::MOST_WORDS + MOST_KEPT_WORDS;

// Why a call is not answered.
#[derive(Clone, Copy, PartialEq, Eq, Debug)]
pub enum Unanswered {
    // The memory that is lent is no desk's.
    NoDesk,
    // The bytes that are lent have no room for every answer.
    AnswerTooSmall,
}

// How many words a desk with this book and this limit asks for in each slice; or why there is none.
pub fn words_asked(book: &[u8], limit: usize) -> Result<usize, Refusal>
    ensures { result ≡ asked (book_in book.now) limit }
{
    Ok(setup_for(book, limit)?.half())
}

// Opens a desk with a book, by its bytes, and a limit of taps: writes every word that is asked for, and no other. What is
// refused changes nothing: no book, a limit above 256, or memory smaller than is asked for, in this order.
pub fn open(book: &[u8], limit: usize, left: &mut [u64], right: &mut [u64]) -> Result<(), Refusal>
    ensures value { result ≡ room_for (asked (book_in book.now) limit) (length left.old) (length right.old) }
    ensures opened { IfOk result (λ _. (b : readings.Book) → book_in book.now ≡ Some b → (left.new ≡ written (left_opened b limit) left.old) × (right.new ≡ written (right_opened b limit) right.old) × Came b limit [] left.new right.new × IsDesk b limit left.new right.new) }
    ensures refused { IfErr result (λ _. (left.new ≡ left.old) × (right.new ≡ right.old)) }
{
    let setup = setup_for(book, limit)?;
    let Some(half) = within(setup.half(), left, right) else {
        return Err(Refusal::MemoryTooSmall);
    };
    let (left, _) = left.split_at_mut(half);
    let (right, _) = right.split_at_mut(half);
    left.fill(0);
    write_head(&setup, left);
    right.fill(0);
    Ok(())
}

// Answers a call, by the bytes of both, over a desk's memory, and says how many bytes are told. A desk answers every call,
// if only by a refusal. Nothing changes where `answer` has no room for every answer of the desk, or where the memory is no
// desk's. That is told by all that lies in it but the kept rows: by rows that no desk left, `cost` and `read` may tell
// anything, or that there is no desk.
pub fn call(
    left: &mut [u64],
    right: &mut [u64],
    request: &[u8],
    answer: &mut [u8],
) -> Result<usize, Unanswered>
    ensures answers { OfCalls left.old right.old (length answer.old) (λ b most cs. (result ≡ Ok (length (bytes_answered b most cs (sent request.now)))) × (answer.new ≡ written (bytes_answered b most cs (sent request.now)) answer.old) × Came b most (cs ++ sent request.now ∷ []) left.new right.new) }
    ensures unanswered { IfSome (unanswered (desk_in left.old right.old) (length answer.old)) (λ e. (result ≡ Err e) × (left.new ≡ left.old) × (right.new ≡ right.old) × (answer.new ≡ answer.old)) }
    ensures bound { IfOk result (λ n. n ≤ length answer.old) }
    ensures untold { IfErr result (λ _. (left.new ≡ left.old) × (answer.new ≡ answer.old)) }
    ensures opened { OfDesk left.old right.old (length answer.old) (λ b most. (take 39 left.new ≡ take 39 left.old) × (drop (half b most) left.new ≡ drop (half b most) left.old) × (drop (half b most) right.new ≡ drop (half b most) right.old)) }
    ensures taps { OfDesk left.old right.old (length answer.old) (λ b most. words_held b most left.new ≡ words_after (words_held b most left.old) (sent request.now)) }
    ensures still { OfDesk left.old right.old (length answer.old) (λ b most. adds most (taps_held b most left.old) (sent request.now) ≡ false → kept_held b most left.new ≡ kept_held b most left.old) }
    ensures unread { reads_rows (sent request.now) ≡ false → right.new ≡ right.old }
    ensures says { OfDesk left.old right.old (length answer.old) (λ b most. Answerable b (words_held b most left.old) (kept_held b most left.old) (sent request.now) → (result ≡ Ok (length (bytes_said b most left.old right.old (sent request.now)))) × (answer.new ≡ written (bytes_said b most left.old right.old (sent request.now)) answer.old)) }
    ensures next { OfDesk left.old right.old (length answer.old) (λ b most. IsDesk b most left.old right.old → (memory b most left.new right.new ≡ desk.next (memory b most left.old right.old) (sent request.now)) × IsDesk b most left.new right.new) }
    ensures best { IfOk result (λ n. OfDesk left.old right.old (length answer.old) (λ b most. IsDesk b most left.old right.old → BestIn b (taps_held b most left.old) (sent request.now) (take n answer.new))) }
{
    let Some(setup) = find_desk(left, right) else {
        return Err(Unanswered::NoDesk);
    };
    if answer.len() < answer_size(setup.limit) {
        return Err(Unanswered::AnswerTooSmall);
    }
    let half = setup.half();
    let (left, _) = left.split_at_mut(half);
    let (right, _) = right.split_at_mut(half);
    answer_desk(&setup, left, right, request, answer).ok_or(Unanswered::NoDesk)
}

// Room in bytes for any answer of a desk with this limit, or with the largest.
pub fn answer_size(limit: usize) -> usize
    ensures { result ≡ answer_room (min limit 256) }
{
    2 * limit.min(MOST_TAPS) + 16
}

// The desk of these contracts answers every list of calls as the definitions do, which try all readings; what it tells is
// right of all readings; what it refuses changes no word; and its memory stays as it has to be.
pub fn desk_stands()
    ensures right { Right desk }
    ensures best { TellsBest }
    ensures keeps { RefusalKeeps desk }
    ensures stays { StaysDesk }
{}

// It wants no more memory than it may.
pub fn memory_stands()
    ensures { Spares }
{}

// What a desk is to be opened with, or why it can't be.
fn setup_for(book: &[u8], limit: usize) -> Result<Setup, Refusal>
    ensures value { MatchResult result (λ s. (book_in book.now ≡ Some (book_of s.book)) × (s.limit ≡ limit)) (λ e. asked (book_in book.now) limit ≡ Err e) }
{
    let Ok(book) = decode_book(book) else {
        return Err(Refusal::NoBook);
    };
    let Some(setup) = Setup::new(book, limit) else {
        return Err(Refusal::LimitTooLarge);
    };
    Ok(setup)
}

// What the desk was opened with whose memory this is, as far as each call can tell.
fn find_desk(left: &[u64], right: &[u64]) -> Option<Setup>
    ensures { option_map setup_of result ≡ desk_in left.now right.now }
{
    let setup = read_head(left)?;
    let half = within(setup.half(), left, right)?;
    let (_, parts) = left[..half].split_at(HEAD_WORDS);
    let (words, _) = parts.split_at(setup.limit + 1);
    is_sound(words).then_some(setup)
}

// So many words, unless one of the slices has fewer.
fn within(half: usize, left: &[u64], right: &[u64]) -> Option<usize>
    ensures { MatchOption result ((nat_le half (length left.now) && nat_le half (length right.now)) ≡ false) (λ n. (n ≡ half) × (half ≤ length left.now) × (half ≤ length right.now)) }
{
    (half <= left.len() && half <= right.len()).then_some(half)
}

// Answers a call over the words that are the desk's.
fn answer_desk(
    setup: &Setup,
    left: &mut [u64],
    right: &mut [u64],
    request: &[u8],
    out: &mut [u8],
) -> Option<usize>
    requires left { length left.old ≡ half (book_of setup.now.book) setup.now.limit }
    requires right { length right.old ≡ half (book_of setup.now.book) setup.now.limit }
    requires room { answer_room setup.now.limit ≤ length out.old }
    ensures bound { IfSome result (λ n. n ≤ length out.old) }
    ensures untold { IfNone result ((left.new ≡ left.old) × (out.new ≡ out.old)) }
    ensures head { take 39 left.new ≡ take 39 left.old }
    ensures taps { taps_words setup.now.limit left.new ≡ words_after (taps_words setup.now.limit left.old) (sent request.now) }
    ensures still { adds setup.now.limit (taps_in (taps_words setup.now.limit left.old)) (sent request.now) ≡ false → kept_words setup.now.limit left.new ≡ kept_words setup.now.limit left.old }
    ensures unread { reads_rows (sent request.now) ≡ false → right.new ≡ right.old }
    ensures next { Held (book_of setup.now.book) (taps_words setup.now.limit left.old) (kept_words setup.now.limit left.old) → (left.new ≡ left_after (book_of setup.now.book) setup.now.limit left.old (sent request.now)) × (right.new ≡ right_after (book_of setup.now.book) setup.now.limit left.old right.old (sent request.now)) }
    ensures says { Answerable (book_of setup.now.book) (taps_words setup.now.limit left.old) (kept_words setup.now.limit left.old) (sent request.now) → (result ≡ Some (length (answer_bytes (said (book_of setup.now.book) setup.now.limit left.old (sent request.now))))) × (out.new ≡ written (answer_bytes (said (book_of setup.now.book) setup.now.limit left.old (sent request.now))) out.old) }
    ensures best { IfSome result (λ n. Held (book_of setup.now.book) (taps_words setup.now.limit left.old) (kept_words setup.now.limit left.old) → BestIn (book_of setup.now.book) (taps_in (taps_words setup.now.limit left.old)) (sent request.now) (take n out.new)) }
{
    let (_, parts) = left.split_at_mut(HEAD_WORDS);
    let (words, kept) = parts.split_at_mut(setup.limit + 1);
    answer_bytes(&setup.book, words, kept, right, request, out)
}

#[cfg(test)]
mod tests;
