// Calls, answers and readings as lines of text.
//
// `specs/Lines.antt` defines which line is which call, and what calls and answers are printed as; `specs/Notes.antt`
// which reading a line is; `specs/Laws.antt` that what was printed reads back. Tokens and numbers are those of the crate
// `tokens`. Read `call.rt` first.
#![tactic(auto)]

ghost use Rattle.text.specs.Laws.{BestRead, CallsRead, KindMeant, ReadingsRead, WithinBook};

pub mod answer;
pub mod call;
pub mod reading;

// A call that was printed reads back.
pub fn calls_stand()
    ensures { CallsRead }
{}

// A reading that was printed reads back as one that is printed alike and costs no more: so the reading told, printed and
// read, still costs the least. What is read is of the book, each note as the lightest kind that it may be.
pub fn readings_stand()
    ensures reads { ReadingsRead }
    ensures best { BestRead }
    ensures within { WithinBook }
    ensures kind { KindMeant }
{}

#[cfg(test)]
mod tests;
