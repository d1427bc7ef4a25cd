// Books as bytes.
ghost use Rattle.std.specs.Prelude.{◌≡◌, ℕ, true, map, length, IfErr, Some, None, slice_index};
ghost use Rattle.std.specs.Option.{option_map};
ghost use Rattle.std.specs.Result.{result_ok};
ghost use Rattle.taps.specs.Readings as readings;
ghost use Rattle.taps.specs.Readings.{pick};
ghost use Rattle.taps.specs.Promise.{good_kind};
ghost use Rattle.taps.specs.Values.{book_of, kind_of, kinds_of, tempi_of};
ghost use Rattle.taps.specs.declared.refusal.Refusal.TheVariants.{NoBook};
ghost use Rattle.octets.specs.Bytes.{number, room, two, written};
ghost use Rattle.books.specs.Books.{book_bytes, book_in, kind_bytes, kind_in, kinds_good, tempi_good};

use octets::number::Number;
use octets::pieces::{Format, decode_all, encode_all};
use taps::book::Book;
use taps::kind::Kind;
use taps::kinds::{Kinds, MOST_KINDS};
use taps::refusal::Refusal;
use taps::tempi::{MOST_TEMPI, Tempi};

// Ticks in a byte and a weight in four.
const KIND_SIZE: usize = 5;
// A tempo.
const TEMPO_SIZE: usize = 2;
// What a change costs.
const CHANGE_SIZE: usize = 4;
// The most bytes that a book has: 294.
pub const MOST_BYTES: usize = 1
    + KIND_SIZE * MOST_KINDS
    + 1
    + TEMPO_SIZE * MOST_TEMPI
    + CHANGE_SIZE;

// The book that the bytes are, where they are one.
pub fn decode_book(bytes: &[u8]) -> Result<Book, Refusal>
    ensures value { option_map book_of (result_ok result) ≡ book_in bytes.now }
    ensures refused { IfErr result (λ e. e ≡ NoBook) }
{
    let tempi_at = 1 + KIND_SIZE * count_at(bytes, 0);
    let change_at = 1 + tempi_at + TEMPO_SIZE * count_at(bytes, tempi_at);
    if bytes.len() != change_at + CHANGE_SIZE {
        return Err(Refusal::NoBook);
    }
    let Some(kinds) = decode_kinds(bytes[1..tempi_at].as_chunks().0) else {
        return Err(Refusal::NoBook);
    };
    let Some(tempi) = decode_tempi(bytes[1 + tempi_at..change_at].as_chunks().0) else {
        return Err(Refusal::NoBook);
    };
    let Some(change) = bytes[change_at..].first_chunk::<CHANGE_SIZE>() else {
        return Err(Refusal::NoBook);
    };
    let Some(book) = Book::new(kinds, tempi, u32::decode(change)) else {
        return Err(Refusal::NoBook);
    };
    Ok(book)
}

// Writes a book, and says how many bytes it took.
pub fn encode_book(book: &Book, out: &mut [u8]) -> Option<usize>
    ensures value { result ≡ room (book_bytes (book_of book.now)) out.old }
    ensures after { out.new ≡ written (book_bytes (book_of book.now)) out.old }
{
    let kinds = book.kinds.list.as_slice();
    let tempi = book.tempi.list.as_slice();
    let tempi_at = 1 + KIND_SIZE * kinds.len();
    let change_at = 1 + tempi_at + TEMPO_SIZE * tempi.len();
    let size = change_at + CHANGE_SIZE;
    let (front, _) = out.split_at_mut_checked(size)?;
    front[0] = kinds.len() as u8;
    encode_all::<KindBytes, KIND_SIZE>(kinds, &mut front[1..tempi_at]);
    front[tempi_at] = tempi.len() as u8;
    encode_all::<TempoBytes, TEMPO_SIZE>(tempi, &mut front[1 + tempi_at..change_at]);
    front[change_at..size].copy_from_slice(&book.change.to_le_bytes());
    Some(size)
}

// The byte at a place, or 0 past the end.
fn count_at(bytes: &[u8], at: usize) -> usize
    ensures { result ≡ slice_index bytes.now at }
{
    usize::from(*bytes.get(at).unwrap_or(&0))
}

// The kinds that the pieces are, where each is one and they are neither none nor too many.
#[tactic(auto, using(crate::proofs::Books::each_kind, std::proofs::lemmas::Grind::common_steps))]
fn decode_kinds(pieces: &[[u8; KIND_SIZE]]) -> Option<Kinds>
    ensures { option_map kinds_of result ≡ pick (kinds_good (length pieces.now) (map kind_in pieces.now)) (Some (map kind_in pieces.now)) None }
{
    Kinds::from_list(decode_all::<KindBytes, KIND_SIZE, MOST_KINDS>(pieces)?)
}

// The tempi that the pairs are, likewise, where they rise within their bounds.
#[tactic(auto, using(crate::proofs::Books::each_tempo, std::proofs::lemmas::Grind::common_steps))]
fn decode_tempi(pairs: &[[u8; TEMPO_SIZE]]) -> Option<Tempi>
    ensures { option_map tempi_of result ≡ pick (tempi_good (length pairs.now) (map number pairs.now)) (Some (map number pairs.now)) None }
{
    Tempi::from_list(decode_all::<TempoBytes, TEMPO_SIZE, MOST_TEMPI>(pairs)?)
}

// A kind: its ticks in a byte, and its weight in four.
struct KindBytes;

impl Format<KIND_SIZE> for KindBytes {
    type Item = Kind;

    ghost Value = { readings.Kind };

    ghost value_of = { kind_of };

    ghost bytes_of = { kind_bytes };

    ghost value_in = { kind_in };

    ghost good = { good_kind };

    fn blank() -> Kind {
        Kind {
            ticks: 1,
            weight: 0,
        }
    }

    fn decode(five: &[u8; KIND_SIZE]) -> Option<Kind> {
        let [ticks, a, b, c, d] = *five;
        Kind::new(ticks, u32::decode(&[a, b, c, d]))
    }

    fn encode(kind: &Kind) -> [u8; KIND_SIZE] {
        let [a, b, c, d] = kind.weight.to_le_bytes();
        [kind.ticks, a, b, c, d]
    }
}

// A tempo, in two bytes; any is one, and whether it is in bounds is for `Tempi` to say.
struct TempoBytes;

impl Format<TEMPO_SIZE> for TempoBytes {
    type Item = u16;

    ghost Value = { ℕ };

    ghost value_of = { λ tempo. tempo };

    ghost bytes_of = { two };

    ghost value_in = { number };

    ghost good = { λ _. true };

    fn blank() -> u16 {
        0
    }

    fn decode(pair: &[u8; TEMPO_SIZE]) -> Option<u16> {
        Some(u16::decode(pair))
    }

    fn encode(tempo: &u16) -> [u8; TEMPO_SIZE] {
        tempo.to_le_bytes()
    }
}
