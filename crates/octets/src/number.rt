// Numbers from bytes.
ghost use Rattle.std.specs.Prelude.{◌≡◌, ℕ};
ghost use Rattle.octets.specs.Bytes.{number};

// A number of N bytes, the low one first.
pub trait Number<const N: usize>: Copy {
    // which number a value is
    ghost value: { Self → ℕ };

    fn decode(bytes: &[u8; N]) -> Self
        ensures { value result ≡ number bytes.now };
}

impl Number<2> for u16 {
    ghost value = { λ n. n };

    fn decode(bytes: &[u8; 2]) -> u16 {
        u16::from_le_bytes(*bytes)
    }
}

impl Number<4> for u32 {
    ghost value = { λ n. n };

    fn decode(bytes: &[u8; 4]) -> u32 {
        u32::from_le_bytes(*bytes)
    }
}

impl Number<8> for u64 {
    ghost value = { λ n. n };

    fn decode(bytes: &[u8; 8]) -> u64 {
        u64::from_le_bytes(*bytes)
    }
}
