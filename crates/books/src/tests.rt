// The book that docs/FORMATS.md shows, and damaged ones.
use crate::book::{decode_book, encode_book};
use std::test::Fail;

// Six kinds, four tempi and a change of 20 for each ms.
const BOOK: [u8; 44] = [
    6, 3, 96, 9, 0, 0, 6, 88, 2, 0, 0, 12, 0, 0, 0, 0, 24, 88, 2, 0, 0, 8, 184, 11, 0, 0, 4, 16,
    14, 0, 0, 4, 144, 1, 244, 1, 88, 2, 238, 2, 20, 0, 0, 0,
];

#[test]
fn book_as_shown(rt: HostRuntime) -> Result<(), Fail> {
    let Ok(book) = decode_book(&BOOK) else {
        return Err(Fail::new("no book"));
    };
    let mut out = [0; 44];
    assert_eq!(rt; encode_book(&book, &mut out), Some(44));
    assert!(rt; out == BOOK);
    let mut small = [7; 43];
    assert_eq!(rt; encode_book(&book, &mut small), None);
    assert!(rt; small == [7; 43]);
    Ok(())
}

// Whether the book is refused with another byte at a place.
fn refused_with(at: usize, byte: u8) -> bool {
    let mut bytes = BOOK;
    if at < bytes.len() {
        bytes[at] = byte;
    }
    decode_book(&bytes).is_err()
}

#[test]
fn books_damaged(rt: HostRuntime) {
    let mut longer = [0; 45];
    longer[0..44].copy_from_slice(&BOOK);
    assert!(rt; decode_book(&longer).is_err());
    for size in 0..44 {
        assert!(rt; decode_book(&BOOK[0..size]).is_err());
    }
    // wrong counts, ticks of 0 and of 97, a weight of 2^24, a tempo below the one before, one alike, one above 4,000, a change of 2^16
    let damages = [
        (0, 7),
        (0, 0),
        (31, 5),
        (31, 3),
        (1, 0),
        (6, 97),
        (10, 1),
        (37, 1),
        (34, 144),
        (39, 16),
        (42, 1),
    ];
    for (at, byte) in damages {
        assert!(rt; refused_with(at, byte));
    }
}
