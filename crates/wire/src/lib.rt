// Calls and answers as bytes.
//
// `specs/Wire.antt` defines the formats over lists of bytes: what each value is written as, and what a list of bytes is
// read as. Each decoder's contract says that its result is that, for every slice of bytes; each encoder's, that it
// writes all the bytes and says how many, or, where the lent slice is too small, nothing. `specs/Laws.antt` has what
// the formats promise together, and the functions below stand for its proofs. Read `call.rt` first.
#![tactic(auto)]

ghost use Rattle.wire.specs.Laws.{AnswersApart, AnswersOnly, AnswersReturn, CallsApart, CallsOnly, CallsReturn};

pub mod answer;
pub mod call;

// Every call and every answer reads back as it was written.
pub fn round_trip_stands()
    ensures calls { CallsReturn }
    ensures answers { AnswersReturn }
{}

// Bytes that are read as a call or an answer are just those that it is written as.
pub fn canonical_stands()
    ensures calls { CallsOnly }
    ensures answers { AnswersOnly }
{}

// No two calls, and no two answers, that differ are written alike.
pub fn bytes_apart_stands()
    ensures calls { CallsApart }
    ensures answers { AnswersApart }
{}

#[cfg(test)]
mod tests;
