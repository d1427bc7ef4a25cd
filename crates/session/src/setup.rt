// What a desk is opened with.
ghost use Rattle.std.specs.Prelude.{◌≡◌, ◌≤◌, IfSome, is_some, nat_le};
ghost use Rattle.taps.specs.Values.{book_of};
ghost use Rattle.session.specs.Layout.{half};

use crate::head::HEAD_WORDS;
use plain::kept_words;
use taps::book::Book;
use taps::call::MOST_TAPS;

#[derive(Clone, Copy)]
pub struct Setup {
    pub book: Book,
    pub limit: usize,
    ghost few: { limit ≤ 256 },
}

impl Setup {
    pub fn new(book: Book, limit: usize) -> Option<Setup>
        ensures test { is_some result ≡ nat_le limit 256 }
        ensures value { IfSome result (λ s. (s.book ≡ book) × (s.limit ≡ limit)) }
    {
        if limit > MOST_TAPS {
            return None;
        }
        Some(Setup { book, limit })
    }

    // How many words of each slice are the desk's.
    pub fn half(&self) -> usize
        ensures { result ≡ half (book_of self.now.book) self.now.limit }
    {
        HEAD_WORDS + (self.limit + 1) + kept_words(&self.book, self.limit.saturating_sub(1))
    }
}
