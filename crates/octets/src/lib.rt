// Numbers and items from bytes and back, and bytes into lent slices.
//
// What the formats above are made of: `specs/Bytes.antt` defines how numbers and lists are written and read, and what
// an encoder tells and leaves; `proofs/` has what holds of these at any width. `Number` reads a number of so many
// bytes; a `Format` says how an item of so many bytes is read and written, and `decode_all` and `encode_all` do so with
// a list of them. Read `write` first.
#![tactic(auto)]

ghost use Rattle.std.specs.Prelude.{◌≡◌};
ghost use Rattle.octets.specs.Bytes.{room, written};

pub mod number;
pub mod pieces;

// Writes all the bytes at the front of `out` and says how many they are, or nothing where they don't fit.
pub fn write(bytes: &[u8], out: &mut [u8]) -> Option<usize>
    ensures value { result ≡ room bytes.now out.old }
    ensures after { out.new ≡ written bytes.now out.old }
{
    let (front, _) = out.split_at_mut_checked(bytes.len())?;
    front.copy_from_slice(bytes);
    Some(bytes.len())
}

#[cfg(test)]
mod tests;
