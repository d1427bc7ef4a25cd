// Why a text is no book, and where.
ghost use Rattle.std.specs.Prelude.{Some};
ghost use Rattle.bookfile.specs.Values.{fault_text, reason_text};

use std::fmt;

#[derive(Clone, Copy, PartialEq, Eq, Debug)]
pub enum Reason {
    // A line that is no kind, where no tempi were told yet, nor begins with `tempi`.
    NoKind,
    // A kind behind 32 others.
    TooManyKinds,
    // A kind's ticks or its weight are out of bounds.
    KindBounds,
    // The tempi come before any kind.
    KindsMissing,
    // Not 1 to 64 tempi that are within bounds and rise.
    BadTempi,
    // The line behind the tempi is no change, or one out of bounds.
    BadChange,
    // Something stands behind the change.
    Behind,
    // The text ends before its change.
    Unfinished,
}

// The first line of a text that does not fit, by its number from 0, of all its lines; where the text ends too early, how
// many lines it has.
#[derive(Clone, Copy, PartialEq, Eq, Debug)]
pub struct Fault {
    pub line: usize,
    pub reason: Reason,
}

impl fmt::Display for Reason {
    ghost output = { λ reason. Some (reason_text reason) };

    fn fmt<W: fmt::Write>(&self, f: &mut fmt::Formatter<W>) -> fmt::Result {
        match *self {
            Reason::NoKind => write!(
                f,
                "this line should be NAME TICKS, weight WEIGHT, or tempi T T .."
            ),
            Reason::TooManyKinds => write!(f, "a book has at most 32 kinds"),
            Reason::KindBounds => {
                write!(f, "a kind has 1 to 96 ticks and a weight below 16777216")
            }
            Reason::KindsMissing => write!(f, "a kind should stand before the tempi"),
            Reason::BadTempi => write!(
                f,
                "the tempi are 1 to 64 numbers from 100 to 4000, each larger than the one before"
            ),
            Reason::BadChange => { write!(f, "this line should be change C, with C below 65536") }
            Reason::Behind => write!(f, "nothing should stand behind the change"),
            Reason::Unfinished => write!(f, "the book ends before its change"),
        }
    }
}

// Lines are counted from 1, as editors do; the number behind the last that a `usize` holds is printed too.
impl fmt::Display for Fault {
    ghost output = { λ fault. Some (fault_text fault) };

    fn fmt<W: fmt::Write>(&self, f: &mut fmt::Formatter<W>) -> fmt::Result {
        let line = self.line as u128 + 1;
        write!(f, "line {line}: {}", self.reason)
    }
}
