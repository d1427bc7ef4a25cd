// Lists of items that take so many bytes each.
ghost use Rattle.std.specs.Prelude.{◌≡◌, ℕ, ◌*◌, Bool, ◌&&◌, List, map, length, Some, None, nat_le};
ghost use Rattle.std.specs.List.{flat_map, list_all};
ghost use Rattle.std.specs.Option.{option_map};
ghost use Rattle.taps.specs.Items.{items};
ghost use Rattle.taps.specs.Readings.{pick};

use taps::listed::Listed;

// How an item is written in N bytes, and which N bytes are one.
//
// An item's type and this trait are most often of two crates, and the format of a third, which implements the trait on a
// type of its own, of which no value is ever made: it only names the format.
pub trait Format<const N: usize> {
    type Item: Copy;

    // what the definitions have for an item
    ghost Value: { Type 0 };

    // what an item stands for
    ghost value_of: { Self.Item → Value };

    // what that is written as
    ghost bytes_of: { Value → List ℕ };

    // what N bytes are read as
    ghost value_in: { List ℕ → Value };

    // whether an item stands for what was read
    ghost good: { Value → Bool };

    // what stands in an array where no item has been read
    fn blank() -> Self::Item;

    fn decode(bytes: &[u8; N]) -> Option<Self::Item>
        ensures { option_map value_of result ≡ pick (good (value_in bytes.now)) (Some (value_in bytes.now)) None };

    fn encode(item: &Self::Item) -> [u8; N]
        ensures { result ≡ bytes_of (value_of item.now) };
}

// The items that the pieces are, where each is one and there is room for all.
pub fn decode_all<F: Format<N>, const N: usize, const MOST: usize>(
    pieces: &[[u8; N]],
) -> Option<Listed<F::Item, MOST>>
    ensures { option_map (λ l. map F.value_of (items l)) result ≡ pick (nat_le (length pieces.now) MOST && list_all F.good (map F.value_in pieces.now)) (Some (map F.value_in pieces.now)) None }
{
    if pieces.len() > MOST {
        return None;
    }
    let mut all = [F::blank(); MOST];
    for (i, piece) in pieces.iter().enumerate() {
        all[i] = F::decode(piece)?;
    }
    Some(Listed {
        all,
        count: pieces.len(),
    })
}

// Writes each item in its N bytes, one behind the other.
pub fn encode_all<F: Format<N>, const N: usize>(items: &[F::Item], out: &mut [u8])
    requires { length out.old ≡ N * length items.now }
    ensures { out.new ≡ flat_map F.bytes_of (map F.value_of items.now) }
{
    for (i, item) in items.iter().enumerate() {
        out[N * i..N * i + N].copy_from_slice(&F::encode(item));
    }
}
