// The words in front of a desk's memory: what it was opened with.
ghost use Rattle.std.specs.Prelude.{◌≡◌, ℕ, ◌≤◌, true, length};
ghost use Rattle.std.specs.Option.{option_map};
ghost use Rattle.octets.specs.Bytes.{eight, number, written};
ghost use Rattle.taps.specs.Values.{book_of};
ghost use Rattle.session.specs.Layout.{head_of, setup_in};
ghost use Rattle.session.specs.Values.{setup_of};

use crate::setup::Setup;
use books::book::{MOST_BYTES, decode_book, encode_book};
use octets::number::Number;
use octets::pieces::{Format, decode_all, encode_all};

// A word has eight bytes.
const WORD_SIZE: usize = 8;
// Words for the bytes of any book.
const BOOK_WORDS: usize = (MOST_BYTES + WORD_SIZE - 1) / WORD_SIZE;
// The bytes of these words.
const BOOK_SIZE: usize = WORD_SIZE * BOOK_WORDS;
// The limit and the book's size stand before the book.
pub const HEAD_WORDS: usize = 2 + BOOK_WORDS;

// What the words in front were written for.
pub fn read_head(words: &[u64]) -> Option<Setup>
    ensures { option_map setup_of result ≡ setup_in words.now }
{
    let (head, _) = words.split_at_checked(HEAD_WORDS)?;
    let mut bytes = [0; BOOK_SIZE];
    encode_all::<WordBytes, WORD_SIZE>(&head[2..], &mut bytes);
    let (book, _) = bytes.split_at_checked(head[1] as usize)?;
    Setup::new(decode_book(book).ok()?, head[0] as usize)
}

// Writes the words in front, for a setup.
pub fn write_head(setup: &Setup, words: &mut [u64])
    requires { 39 ≤ length words.old }
    ensures { words.new ≡ written (head_of (book_of setup.now.book) setup.now.limit) words.old }
{
    let mut bytes = [0; BOOK_SIZE];
    let size = encode_book(&setup.book, &mut bytes).unwrap();
    let book = decode_all::<WordBytes, WORD_SIZE, BOOK_WORDS>(bytes.as_chunks().0).unwrap();
    words[0] = setup.limit as u64;
    words[1] = size as u64;
    words[2..HEAD_WORDS].copy_from_slice(book.as_slice());
}

// A word, by its bytes; any eight are one.
struct WordBytes;

impl Format<WORD_SIZE> for WordBytes {
    type Item = u64;

    ghost Value = { ℕ };

    ghost value_of = { λ word. word };

    ghost bytes_of = { eight };

    ghost value_in = { number };

    ghost good = { λ _. true };

    fn blank() -> u64 {
        0
    }

    fn decode(bytes: &[u8; WORD_SIZE]) -> Option<u64> {
        Some(u64::decode(bytes))
    }

    fn encode(word: &u64) -> [u8; WORD_SIZE] {
        word.to_le_bytes()
    }
}
