// Calls answered over lent words that hold the taps, as values or by their bytes.
//
// While taps come and are taken back, the rows of `plain` from the first gap on are kept in other words: a tap adds one
// row, and what the best reading costs is read in the last. The rows from the last gap on, which tell the best reading,
// are made in words of their own when it is asked for. `specs/Answered.antt` says what a call is answered, and what it
// leaves in every word, of words as a desk holds them (`Held`): what the definitions of calls say, for the book;
// `specs/Laws.antt` says that what is told of the best reading is right. Read `answer_call` first.
#![tactic(auto)]

ghost use Rattle.std.specs.Prelude.{◌≡◌, ◌-◌, ◌<◌, ◌≤◌, true, false, [], ◌∷◌, ◌++◌, length, take, Some, None, IfNone, IfSome, MatchOption};
ghost use Rattle.std.specs.Option.{IsSome, option_map};
ghost use Rattle.octets.specs.Bytes.{written};
ghost use Rattle.taps.specs.Calls.{after, answer, gaps, taps, turned};
ghost use Rattle.taps.specs.Items.{items};
ghost use Rattle.taps.specs.Promise.{small};
ghost use Rattle.taps.specs.Readings.{least, pick, reading};
ghost use Rattle.taps.specs.Values.{answer_of, book_of, call_of, reading_of};
ghost use Rattle.onsets.specs.Onsets.{limit_of, taps_in, words_after};
ghost use Rattle.plain.specs.Restricted.{Free, gaps_of};
ghost use Rattle.plain.specs.Rows.{kept_size, rows_size};
ghost use Rattle.wire.specs.Wire.{call_in};
ghost use Rattle.answers.specs.Answered.{Answerable, Held, IsAnswer, adds, heard, is_answered, kept_of, kept_then, left_bytes, reads_rows, roomy, rows_left, rows_then, told_bytes};
ghost use Rattle.answers.specs.Laws.{AlwaysAnswered, Best, BestIn};

use bitset::BitSet;
use model::Step;
use onsets::{append, check, count, gap, last, limit, take_back};
use plain::{first_reading, keep_gap, keep_start, kept_cost, kept_words, row_words};
use taps::answer::Answer;
use taps::book::Book;
use taps::call::{Call, TIME_END};
use taps::listed::Listed;
use taps::read::{MOST_GAPS, Read, Reading};
use wire::answer::encode_answer;
use wire::call::decode_call;

// Answers a call by bytes, and says how many; none where it is not answered, or `out` is too small. A call is taken even
// where its answer does not fit, so `out` should have room for any. What is told is right of all readings, as for
// `answer_call`.
#[tactic(auto, unfolding(crate::specs::Answered::told_of, crate::specs::Answered::left_of))]
pub fn answer_bytes(
    book: &Book,
    words: &mut [u64],
    kept: &mut [u64],
    rows: &mut [u64],
    request: &[u8],
    out: &mut [u8],
) -> Option<usize>
    ensures after { words.new ≡ pick (is_answered (book_of book.now) words.old kept.old rows.old (heard (call_in request.now))) (words_after words.old (heard (call_in request.now))) words.old }
    ensures taps { taps_in words.new ≡ pick (is_answered (book_of book.now) words.old kept.old rows.old (heard (call_in request.now))) (after (limit_of words.old) (taps_in words.old) (heard (call_in request.now))) (taps_in words.old) }
    ensures kept { Held (book_of book.now) words.old kept.old → kept.new ≡ pick (is_answered (book_of book.now) words.old kept.old rows.old (heard (call_in request.now))) (kept_then (book_of book.now) words.old (heard (call_in request.now)) kept.old) kept.old }
    ensures still { adds (limit_of words.old) (taps_in words.old) (heard (call_in request.now)) ≡ false → kept.new ≡ kept.old }
    ensures unread { reads_rows (heard (call_in request.now)) ≡ false → rows.new ≡ rows.old }
    ensures rows { Answerable (book_of book.now) words.old kept.old (heard (call_in request.now)) → rows.new ≡ pick (is_answered (book_of book.now) words.old kept.old rows.old (heard (call_in request.now))) (rows_then (book_of book.now) words.old (heard (call_in request.now)) rows.old) rows.old }
    ensures held { Held (book_of book.now) words.old kept.old → Held (book_of book.now) words.new kept.new }
    ensures value { Answerable (book_of book.now) words.old kept.old (heard (call_in request.now)) → result ≡ told_bytes (book_of book.now) words.old kept.old rows.old (heard (call_in request.now)) out.old }
    ensures left { Answerable (book_of book.now) words.old kept.old (heard (call_in request.now)) → out.new ≡ left_bytes (book_of book.now) words.old kept.old rows.old (heard (call_in request.now)) out.old }
    ensures bound { IfSome result (λ n. n ≤ length out.old) }
    ensures untold { IfNone result (out.new ≡ out.old) }
    ensures best { IfSome result (λ n. Held (book_of book.now) words.old kept.old → BestIn (book_of book.now) (taps_in words.old) (heard (call_in request.now)) (take n out.new)) }
{
    let answer = match decode_call(request) {
        Ok(call) => answer_call(book, words, kept, rows, call)?,
        Err(refusal) => Answer::Refused(refusal),
    };
    encode_answer(answer, out)
}

// What a call is answered; none where there is no room for the rows of as many taps as the limit, and then nothing
// changes. Words as a desk holds them stay so. Of those the cost told is that of some reading, and none costs less; and
// the reading told is the first of those that cost so little. Of other words, what is kept may tell anything.
pub fn answer_call(
    book: &Book,
    words: &mut [u64],
    kept: &mut [u64],
    rows: &mut [u64],
    call: Call,
) -> Option<Answer>
    ensures after { words.new ≡ pick (is_answered (book_of book.now) words.old kept.old rows.old (call_of call)) (words_after words.old (call_of call)) words.old }
    ensures taps { taps_in words.new ≡ pick (is_answered (book_of book.now) words.old kept.old rows.old (call_of call)) (after (limit_of words.old) (taps_in words.old) (call_of call)) (taps_in words.old) }
    ensures kept { Held (book_of book.now) words.old kept.old → kept.new ≡ pick (is_answered (book_of book.now) words.old kept.old rows.old (call_of call)) (kept_then (book_of book.now) words.old (call_of call) kept.old) kept.old }
    ensures still { adds (limit_of words.old) (taps_in words.old) (call_of call) ≡ false → kept.new ≡ kept.old }
    ensures unread { reads_rows (call_of call) ≡ false → rows.new ≡ rows.old }
    ensures rows { Answerable (book_of book.now) words.old kept.old (call_of call) → rows.new ≡ pick (is_answered (book_of book.now) words.old kept.old rows.old (call_of call)) (rows_then (book_of book.now) words.old (call_of call) rows.old) rows.old }
    ensures held { Held (book_of book.now) words.old kept.old → Held (book_of book.now) words.new kept.new }
    ensures value { Answerable (book_of book.now) words.old kept.old (call_of call) → IsAnswer (book_of book.now) words.old kept.old rows.old call result }
    ensures best { IfSome result (λ a. Held (book_of book.now) words.old kept.old → Best (book_of book.now) (taps_in words.old) (call_of call) (answer_of a)) }
    ensures untouched { is_answered (book_of book.now) words.old kept.old rows.old (call_of call) ≡ false → (result ≡ None) × (kept.new ≡ kept.old) × (rows.new ≡ rows.old) }
{
    if !has_room(book, words, kept, rows) {
        return None;
    }
    match call {
        Call::Tap(time) => tap(book, words, kept, time),
        Call::Back => Some(take_back(words).into()),
        Call::Cost => best_cost(book, words, kept).map(Answer::Number),
        Call::Read => best_reading(book, words, kept, rows).map(Answer::Reads),
    }
}

// Every call is answered, where as many words are lent as any rows take.
pub fn always_answered_stands()
    ensures { AlwaysAnswered }
{}

// Whether the words have room for the rows of as many taps as the limit.
fn has_room(book: &Book, words: &[u64], kept: &[u64], rows: &[u64]) -> bool
    ensures { result ≡ roomy (book_of book.now) (limit_of words.now) (length kept.now) (length rows.now) }
{
    let gaps = limit(words).saturating_sub(1);
    kept_words(book, gaps) <= kept.len() && row_words(book, gaps) <= rows.len()
}

// Takes a tap, and keeps its row.
fn tap(book: &Book, words: &mut [u64], kept: &mut [u64], time: u32) -> Option<Answer>
    ensures after { kept_size (book_of book.now) (limit_of words.old - 1) ≤ length kept.old → words.new ≡ words_after words.old (taps time) }
    ensures value { kept_size (book_of book.now) (limit_of words.old - 1) ≤ length kept.old → option_map answer_of result ≡ Some (answer (book_of book.now) (limit_of words.old) (taps_in words.old) (taps time)) }
    ensures kept { Held (book_of book.now) words.old kept.old → kept_size (book_of book.now) (limit_of words.old - 1) ≤ length kept.old → kept.new ≡ kept_then (book_of book.now) words.old (taps time) kept.old }
    ensures still { adds (limit_of words.old) (taps_in words.old) (taps time) ≡ false → kept.new ≡ kept.old }
{
    if let Err(refusal) = check(words, time) {
        return Some(Answer::Refused(refusal));
    }
    keep(book, words, kept, time)?;
    Some(append(words, time).into())
}

// Keeps the row of a tap that is to be taken: the gap before it, behind those that are kept.
fn keep(book: &Book, words: &[u64], kept: &mut [u64], time: u32) -> Option<usize>
    requires { time < 16777216 }
    ensures value { turned (limit_of words.now) (taps_in words.now) (taps time) ≡ 0 → kept_size (book_of book.now) (limit_of words.now - 1) ≤ length kept.old → IsSome result }
    ensures after { Held (book_of book.now) words.now kept.old → turned (limit_of words.now) (taps_in words.now) (taps time) ≡ 0 → kept_size (book_of book.now) (limit_of words.now - 1) ≤ length kept.old → kept.new ≡ written (kept_of (book_of book.now) (taps_in words.now ++ time ∷ [])) kept.old }
{
    let Some(last) = last(words) else {
        return keep_start(book, kept);
    };
    let gap = u64::from(time).saturating_sub(last) as u32;
    keep_gap(book, count(words) - 1, gap, kept)
}

// What the best reading costs, by the last row that is kept.
fn best_cost(book: &Book, words: &[u64], kept: &[u64]) -> Option<u64>
    ensures { Held (book_of book.now) words.now kept.now → result ≡ Some (least (book_of book.now) 0 (gaps (taps_in words.now))) }
{
    let Some(gaps) = count(words).checked_sub(1) else {
        return Some(0);
    };
    kept_cost(book, gaps, kept)
}

// The best reading, by the rows from the last gap on.
fn best_reading(book: &Book, words: &[u64], kept: &[u64], rows: &mut [u64]) -> Option<Reading>
    ensures value { Held (book_of book.now) words.now kept.now → rows_size (book_of book.now) (limit_of words.now - 1) ≤ length rows.old → option_map reading_of result ≡ Some (reading (book_of book.now) 0 (gaps (taps_in words.now))) }
    ensures rows { Held (book_of book.now) words.now kept.now → rows_size (book_of book.now) (limit_of words.now - 1) ≤ length rows.old → rows.new ≡ rows_left (book_of book.now) (gaps (taps_in words.now)) rows.old }
{
    let steps = steps_of(words)?;
    // With no tap there is no row that is kept, and with one there is nothing to read.
    if steps.count == 0 {
        let all = [Read { kind: 0, tempo: 0 }; MOST_GAPS];
        return Some(Listed { all, count: 0 });
    }
    first_reading(book, &steps, kept, rows)
}

// A step for each gap, which may be read as any kind; none where a gap has 2^24 ms or more.
fn steps_of(words: &[u64]) -> Option<Listed<Step, MOST_GAPS>>
    ensures { MatchOption result (small (gaps (taps_in words.now)) ≡ false) (λ l. (small (gaps (taps_in words.now)) ≡ true) × (gaps_of (items l) ≡ gaps (taps_in words.now)) × Free (items l)) }
{
    let kinds = BitSet::full();
    let mut all = [Step { gap: 0, kinds }; MOST_GAPS];
    let count = count(words).saturating_sub(1);
    for i in 0..count {
        let gap = gap(words, i)?;
        if gap >= u64::from(TIME_END) {
            return None;
        }
        let gap = gap as u32;
        all[i] = Step { gap, kinds };
    }
    Some(Listed { all, count })
}

#[cfg(test)]
mod tests;
