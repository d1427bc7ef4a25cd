// Taps in lent words: how many there are, when they came, and the gaps between them.
//
// The first word has how many taps are held, and those after it their times in ms. The limit is how many words there are
// behind the first, and never above 256. `specs/Onsets.antt` says which taps words stand for (`taps_in`) and what a call
// leaves in every word (`words_after`). Every slice of words stands for some taps, so nothing is asked of the words that
// are lent: whatever they hold, each function answers by the taps that they stand for, and `is_sound` tells words that a
// desk leaves from others. Read `check` first, and `append`.
#![tactic(auto)]

ghost use Rattle.std.specs.Prelude.{◌≡◌, ◌+◌, ◌-◌, ◌<◌, ◌≤◌, true, false, ◌&&◌, [], length, replicate, MatchOption, slice_index};
ghost use Rattle.std.specs.List.{slice_get};
ghost use Rattle.taps.specs.Calls.{after, back, gaps, taps};
ghost use Rattle.taps.specs.Promise.{small};
ghost use Rattle.octets.specs.Bytes.{room, written};
ghost use Rattle.onsets.specs.Onsets.{Taken, is_later, last_in, limit_of, taps_in, words_after};
ghost use Rattle.onsets.specs.Laws.{Follows, KeepsLimit, SmallGaps, StaysSound, rises, sound_words};

use taps::call::{MOST_TAPS, TIME_END};
use taps::refusal::Refusal;

// Words for the largest limit.
pub const MOST_WORDS: usize = MOST_TAPS + 1;

// No taps: every word is 0.
pub fn clear(words: &mut [u64])
    ensures after { words.new ≡ replicate (length words.old) 0 }
    ensures taps { taps_in words.new ≡ [] }
{
    words.fill(0);
}

// The number that a tap at this time would have, from 0, or why it is not taken.
#[tactic(auto, unfolding(taps::specs::Calls::turned))]
pub fn check(words: &[u64], time: u32) -> Result<usize, Refusal>
    ensures { Taken (limit_of words.now) (taps_in words.now) (taps time) (length (taps_in words.now)) result }
{
    let Some(time) = in_time(time) else {
        return Err(Refusal::TooLate);
    };
    let Some(_) = after_last(words, time) else {
        return Err(Refusal::NotLater);
    };
    let Some(number) = next_number(words) else {
        return Err(Refusal::TooManyTaps);
    };
    Ok(number)
}

// Adds a tap, and answers its number, from 0.
pub fn append(words: &mut [u64], time: u32) -> Result<usize, Refusal>
    ensures after { words.new ≡ words_after words.old (taps time) }
    ensures taps { taps_in words.new ≡ after (limit_of words.old) (taps_in words.old) (taps time) }
    ensures value { Taken (limit_of words.old) (taps_in words.old) (taps time) (length (taps_in words.old)) result }
{
    let number = check(words, time)?;
    words[number + 1] = u64::from(time);
    words[0] = number as u64 + 1;
    Ok(number)
}

// Takes the last tap back, and answers how many are left.
#[tactic(auto, unfolding(taps::specs::Calls::turned))]
pub fn take_back(words: &mut [u64]) -> Result<usize, Refusal>
    ensures after { words.new ≡ words_after words.old back }
    ensures taps { taps_in words.new ≡ after (limit_of words.old) (taps_in words.old) back }
    ensures value { Taken (limit_of words.old) (taps_in words.old) back (length (taps_in words.old) - 1) result }
{
    let Some(left) = count(words).checked_sub(1) else {
        return Err(Refusal::NoTap);
    };
    words[0] = left as u64;
    Ok(left)
}

// How many taps there is room for.
pub fn limit(words: &[u64]) -> usize
    ensures { result ≡ limit_of words.now }
{
    words.len().saturating_sub(1).min(MOST_TAPS)
}

// How many taps there are.
pub fn count(words: &[u64]) -> usize
    ensures { result ≡ length (taps_in words.now) }
{
    words
        .first()
        .map_or(0, |first| limit(words).min(*first as usize))
}

// When the last tap came.
#[tactic(auto, using(crate::proofs::Words::last_word))]
pub fn last(words: &[u64]) -> Option<u64>
    ensures { result ≡ last_in (taps_in words.now) }
{
    let count = count(words);
    (count != 0).then(|| words[count])
}

// The gap after the tap numbered `i`, if another tap follows it.
pub fn gap(words: &[u64], i: usize) -> Option<u64>
    ensures { result ≡ slice_get (gaps (taps_in words.now)) i }
{
    (i < gap_count(words)).then(|| gap_at(words, i))
}

// Writes all gaps at the front of `out` and says how many they are, or nothing where they don't fit.
pub fn write_gaps(words: &[u64], out: &mut [u64]) -> Option<usize>
    ensures value { result ≡ room (gaps (taps_in words.now)) out.old }
    ensures after { out.new ≡ written (gaps (taps_in words.now)) out.old }
{
    let size = gap_count(words);
    let (front, _) = out.split_at_mut_checked(size)?;
    for (i, place) in front.iter_mut().enumerate() {
        *place = gap_at(words, i);
    }
    Some(size)
}

// Whether the words hold taps as a desk leaves them: no more than there is room for, each later than the one before,
// and all before 2^24 ms.
#[tactic(auto, unfolding(taps::specs::Promise::small, crate::specs::Laws::rises))]
pub fn is_sound(words: &[u64]) -> bool
    ensures { result ≡ sound_words words.now }
{
    let Some((first, times)) = words.split_first() else {
        return true;
    };
    let count = *first as usize;
    count <= limit(words) && are_sound(&times[..count])
}

// Whatever is called, the words stand for the taps that the definitions of calls have, and have room for as many; the
// taps stay sound, and their gaps small.
pub fn held_stands()
    ensures follows { Follows }
    ensures limit { KeepsLimit }
    ensures sound { StaysSound }
    ensures gaps { SmallGaps }
{}

// The time as a word, unless it is too late.
fn in_time(time: u32) -> Option<u64>
    ensures { MatchOption result (16777216 ≤ time) (λ t. (t ≡ time) × (t < 16777216)) }
{
    (time < TIME_END).then_some(u64::from(time))
}

// The time, unless the last tap came as late.
fn after_last(words: &[u64], time: u64) -> Option<u64>
    ensures { MatchOption result (is_later (taps_in words.now) time ≡ false) (λ t. (t ≡ time) × (is_later (taps_in words.now) time ≡ true)) }
{
    last(words).is_none_or(|last| last < time).then_some(time)
}

// The number of the next tap, unless there is no room for it.
fn next_number(words: &[u64]) -> Option<usize>
    ensures { MatchOption result (limit_of words.now ≤ length (taps_in words.now)) (λ n. (n ≡ length (taps_in words.now)) × (n < limit_of words.now)) }
{
    let count = count(words);
    (count < limit(words)).then_some(count)
}

// Whether each time is later than the one before, and all are before 2^24 ms: where they rise, the last tells of all.
fn are_sound(times: &[u64]) -> bool
    ensures { result ≡ (rises times.now && small times.now) }
{
    rise(times) && times.last().is_none_or(|last| *last < u64::from(TIME_END))
}

// Whether each time is later than the one before. It looks at all of them, so that a processor can compare several at once.
#[tactic(auto, using(crate::proofs::Sound::rises_first, crate::proofs::Sound::rises_next))]
fn rise(times: &[u64]) -> bool
    ensures { result ≡ rises times.now }
{
    let mut rising = true;
    for i in 1..times.len() {
        rising &= times[i - 1] < times[i];
    }
    rising
}

#[tactic(auto, using(taps::proofs::Between::length_gaps))]
fn gap_count(words: &[u64]) -> usize
    ensures gaps { result ≡ length (gaps (taps_in words.now)) }
    ensures taps { result ≡ length (taps_in words.now) - 1 }
{
    count(words).saturating_sub(1)
}

// Between the taps numbered `i` and `i + 1`; 0 where the second is not later, as no desk leaves it.
#[tactic(auto, using(crate::proofs::Words::gap_in))]
fn gap_at(words: &[u64], i: usize) -> u64
    requires { i + 1 < length (taps_in words.now) }
    ensures { result ≡ slice_index (gaps (taps_in words.now)) i }
{
    words[i + 2].saturating_sub(words[i + 1])
}

#[cfg(test)]
mod tests;
