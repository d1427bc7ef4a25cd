// Books as bytes.
//
// `specs/Books.antt` defines the format over lists of bytes. `decode_book` answers the book that bytes are, for every
// slice of bytes, or that they are none; `encode_book` writes all of a book's bytes and says how many, or, where the
// lent slice is too small, nothing. `specs/Laws.antt` has what the format promises, and the functions below stand for
// its proofs. Read `book.rt` first.
#![tactic(auto)]

ghost use Rattle.books.specs.Laws.{BooksApart, BooksOnly, BooksReturn};

pub mod book;

// Every good book reads back as it was written.
pub fn round_trip_stands()
    ensures { BooksReturn }
{}

// Bytes that are read as a book are just those that it is written as.
pub fn canonical_stands()
    ensures { BooksOnly }
{}

// No two good books that differ are written alike.
pub fn bytes_apart_stands()
    ensures { BooksApart }
{}

#[cfg(test)]
mod tests;
