// Why a command line can't be understood.
ghost use Rattle.std.specs.Prelude.{Some};
ghost use Rattle.options.specs.Values.{bad_of, bad_text};

use std::fmt;

#[derive(Clone, Copy)]
pub enum BadOption<'a> {
    // No file stands behind `--book`.
    BookMissing,
    // No number stands behind `--limit`.
    LimitMissing,
    // What stands behind `--limit` is no number up to 256.
    BadLimit(&'a str),
    // A word that begins with `-` and is no option.
    Unknown(&'a str),
    // A file is named behind another.
    SecondFile,
}

impl fmt::Display for BadOption<'_> {
    ghost output = { λ bad. Some (bad_text (bad_of bad)) };

    fn fmt<W: fmt::Write>(&self, f: &mut fmt::Formatter<W>) -> fmt::Result {
        match *self {
            BadOption::BookMissing => write!(f, "--book wants a file"),
            BadOption::LimitMissing => write!(f, "--limit wants a number of taps"),
            BadOption::BadLimit(word) => {
                write!(f, "--limit takes a number up to 256, and not {word}")
            }
            BadOption::Unknown(word) => write!(f, "unknown option {word}"),
            BadOption::SecondFile => write!(f, "more than one file"),
        }
    }
}
