// What the words of a command line ask for.
ghost use Rattle.std.specs.Prelude.{◌≡◌, map};
ghost use Rattle.std.specs.String.{string_bytes};
ghost use Rattle.options.specs.Options.{asked_in};
ghost use Rattle.options.specs.Values.{asked_of, told};

use crate::bad_option::BadOption;
use crate::draft::Draft;

#[derive(Clone, Copy)]
pub struct Request<'a> {
    // The file of a book; the built-in one serves where none is named.
    pub book: Option<&'a str>,
    // How many taps are taken.
    pub limit: usize,
    // The file that the program reads; standard input where none is named.
    pub input: Option<&'a str>,
}

#[derive(Clone, Copy)]
pub enum Asked<'a> {
    Help,
    Run(Request<'a>),
}

// What words ask for, or the first of them that can't be understood. An option that is given twice counts as it is given
// last.
pub fn parse_options(words: &[String], takes_limit: bool) -> Result<Asked<'_>, BadOption<'_>>
    ensures { told asked_of result ≡ asked_in takes_limit (map string_bytes words.now) }
{
    let mut draft = Draft::new();
    for word in words {
        draft = draft.take_word(word.as_str(), takes_limit)?;
    }
    draft.finish()
}
