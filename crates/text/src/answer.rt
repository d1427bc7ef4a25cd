// Answers as lines: a refusal, a number, or a reading.
ghost use Rattle.std.specs.Prelude.{Some, map};
ghost use Rattle.taps.specs.Values.{answer_of, book_of, read_of};
ghost use Rattle.text.specs.Lines.{answer_text, note_text, reading_text};

use std::fmt;
use taps::answer::Answer;
use taps::book::Book;
use taps::read::Read;

// The line that says an answer, of a desk with this book.
#[derive(Clone, Copy)]
pub struct Line<'a> {
    pub book: &'a Book,
    pub answer: &'a Answer,
}

impl fmt::Display for Line<'_> {
    ghost output = { λ line. Some (answer_text (book_of line.book.now) (answer_of line.answer.now)) };

    fn fmt<W: fmt::Write>(&self, f: &mut fmt::Formatter<W>) -> fmt::Result {
        match *self.answer {
            Answer::Refused(refusal) => write!(f, "{refusal}"),
            Answer::Number(number) => write!(f, "{number}"),
            Answer::Reads(reading) => {
                let notes = Notes {
                    book: self.book,
                    reads: reading.as_slice(),
                };
                write!(f, "{notes}")
            }
        }
    }
}

// A reading as notes, as in `12@500 6@500`; `none` where there is no gap.
#[derive(Clone, Copy)]
struct Notes<'a> {
    book: &'a Book,
    reads: &'a [Read],
}

impl fmt::Display for Notes<'_> {
    ghost output = { λ notes. Some (reading_text (book_of notes.book.now) (map read_of notes.reads.now)) };

    fn fmt<W: fmt::Write>(&self, f: &mut fmt::Formatter<W>) -> fmt::Result {
        let book = self.book;
        let Some((first, rest)) = self.reads.split_first() else {
            return write!(f, "none");
        };
        let note = Note { book, read: *first };
        write!(f, "{note}")?;
        for read in rest {
            let note = Note { book, read: *read };
            write!(f, " {note}")?;
        }
        Ok(())
    }
}

// A note by its ticks and its tempo, as in `12@500`.
#[derive(Clone, Copy)]
pub struct Note<'a> {
    pub book: &'a Book,
    pub read: Read,
}

impl fmt::Display for Note<'_> {
    ghost output = { λ note. Some (note_text (book_of note.book.now) (read_of note.read)) };

    fn fmt<W: fmt::Write>(&self, f: &mut fmt::Formatter<W>) -> fmt::Result {
        let kinds = self.book.kinds.list.as_slice();
        let tempi = self.book.tempi.list.as_slice();
        let ticks = kinds
            .get(usize::from(self.read.kind))
            .map_or(0, |kind| kind.ticks);
        let tempo = tempi
            .get(usize::from(self.read.tempo))
            .map_or(0, |tempo| *tempo);
        write!(f, "{ticks}@{tempo}")
    }
}
