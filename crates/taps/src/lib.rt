// The domain: what somebody taps, what it may be read as, what is asked of a desk and what it refuses.
//
// `Kind`, `Read` and `Book` carry their bounds in their types, so that a value that exists is a good one; `new` answers
// `None` where a bound is passed. `specs/Readings.antt`, `Calls.antt` and `Promise.antt` define what a reading costs,
// what a call is answered and what a desk is to keep; `specs/Values.antt` says which of their values each value here
// stands for. What holds of all readings is in the crate `statements`. Read `book.rt` first.
#![tactic(auto)]

ghost use Rattle.taps.specs.Promise.{GoodBook};
ghost use Rattle.taps.specs.Values.{book_of};

pub mod answer;
pub mod book;
pub mod built_in;
pub mod call;
pub mod kind;
pub mod kinds;
pub mod listed;
pub mod read;
pub mod refusal;
pub mod tempi;
pub mod worked;

use book::Book;

// What a `Book` stands for is a good book, whichever it is.
pub fn good_book_stands(book: &Book)
    ensures { GoodBook (book_of book.now) }
{}

#[cfg(test)]
mod tests;
