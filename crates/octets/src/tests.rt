// Numbers and items by their bytes.
ghost use Rattle.std.specs.Prelude.{ℕ, nat_lt};
ghost use Rattle.octets.specs.Bytes.{number, two};

use crate::number::Number;
use crate::pieces::{Format, decode_all, encode_all};
use std::test::Fail;

#[test]
fn numbers_low_byte_first(rt: HostRuntime) {
    assert_eq!(rt; u16::decode(&[244, 1]), 500);
    assert_eq!(rt; u32::decode(&[1, 2, 3, 4]), 67305985);
    assert_eq!(rt;
        u64::decode(&[1, 0, 0, 0, 0, 0, 0, 128]),
        9223372036854775809
    );
}

// Numbers below 1,000 in two bytes.
struct Small;

impl Format<2> for Small {
    type Item = u16;

    ghost Value = { ℕ };

    ghost value_of = { λ n. n };

    ghost bytes_of = { two };

    ghost value_in = { number };

    ghost good = { λ n. nat_lt n 1000 };

    fn blank() -> u16 {
        0
    }

    fn decode(bytes: &[u8; 2]) -> Option<u16> {
        let n = u16::decode(bytes);
        (n < 1000).then_some(n)
    }

    fn encode(n: &u16) -> [u8; 2] {
        n.to_le_bytes()
    }
}

#[test]
fn items_in_their_order(rt: HostRuntime) -> Result<(), Fail> {
    let mut out = [9; 6];
    encode_all::<Small, 2>(&[1, 999, 258], &mut out);
    assert_eq!(rt; out, [1, 0, 231, 3, 2, 1]);
    let (pieces, rest) = out.as_chunks::<2>();
    assert!(rt; rest.is_empty());
    let Some(read) = decode_all::<Small, 2, 4>(pieces) else {
        return Err(Fail::new("no items"));
    };
    assert!(rt; read.as_slice() == [1, 999, 258].as_slice());
    Ok(())
}

#[test]
fn items_refused(rt: HostRuntime) {
    assert!(rt; decode_all::<Small, 2, 2>(&[[1, 0], [2, 0], [3, 0]]).is_none());
    assert!(rt; decode_all::<Small, 2, 4>(&[[1, 0], [232, 3]]).is_none());
    assert!(rt; decode_all::<Small, 2, 4>(&[]).is_some());
}
