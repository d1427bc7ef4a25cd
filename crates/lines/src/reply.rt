// What a line is answered.
ghost use Rattle.std.specs.Prelude.{Some};
ghost use Rattle.taps.specs.Values.{book_of};
ghost use Rattle.text.specs.Lines.{answer_text};
ghost use Rattle.lines.specs.Values.{reply_of};

use std::fmt;
use taps::answer::Answer;
use taps::book::Book;
use text::answer::Line;

// The number of the refusal of what can't be read.
const UNREADABLE: u32 = 1;

#[derive(Clone, Copy)]
pub enum Reply {
    // The line with this number, from 0, can't be read.
    Unreadable(usize),
    // It is a call, and that is answered so.
    Answered(Answer),
}

// The line that says it, of a desk with this book.
#[derive(Clone, Copy)]
pub struct ReplyLine<'a> {
    pub book: &'a Book,
    pub reply: &'a Reply,
}

impl fmt::Display for ReplyLine<'_> {
    ghost output = { λ line. Some (answer_text (book_of line.book.now) (reply_of line.reply.now)) };

    fn fmt<W: fmt::Write>(&self, f: &mut fmt::Formatter<W>) -> fmt::Result {
        match self.reply {
            Reply::Unreadable(number) => write!(f, "refused {UNREADABLE} at {number}"),
            Reply::Answered(answer) => {
                let line = Line {
                    book: self.book,
                    answer,
                };
                write!(f, "{line}")
            }
        }
    }
}
