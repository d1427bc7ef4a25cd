// A desk that is asked by lines of text.
//
// `specs/Lines.antt` says which calls the lines of a text are, and what text their answers are. A `BorrowedDesk` borrows a
// book and a desk's memory, and answers a call, a line, or a whole text; its contracts cite the definitions of calls, which
// try all readings, for any calls since it was opened. An `OpenDesk` holds its memory, and promises the same. Read
// `borrowed_desk.rt` first.
#![tactic(auto)]

pub mod borrowed_desk;
pub mod open_desk;
pub mod reply;
#[cfg(test)]
mod tests;
