// Calls as bytes.
ghost use Rattle.std.specs.Prelude.{◌≡◌, IfSome, Ok, take};
ghost use Rattle.octets.specs.Bytes.{room, written};
ghost use Rattle.wire.specs.Wire.{alone, call_bytes, call_in, tap_in};

use octets::number::Number;
use octets::write;
use taps::call::Call;
use taps::refusal::Refusal;

// The first byte of a tap; its time follows.
const TAP: u8 = 0;
// The one byte of a call that takes the last tap back.
const BACK: u8 = 1;
// The one byte of a call for the cost.
const COST: u8 = 2;
// The one byte of a call for the reading.
const READ: u8 = 3;

// The call that the bytes are, or the place of the first byte that doesn't fit.
pub fn decode_call(bytes: &[u8]) -> Result<Call, Refusal>
    ensures { result ≡ call_in bytes.now }
{
    let [first, rest @ ..] = bytes else {
        return Err(Refusal::Garbled(0));
    };
    match *first {
        TAP => decode_tap(rest),
        BACK => decode_alone(Call::Back, rest),
        COST => decode_alone(Call::Cost, rest),
        READ => decode_alone(Call::Read, rest),
        _ => Err(Refusal::Garbled(0)),
    }
}

// Writes a call, and says how many bytes it took; these read back as the call.
pub fn encode_call(call: Call, out: &mut [u8]) -> Option<usize>
    ensures value { result ≡ room (call_bytes call) out.old }
    ensures after { out.new ≡ written (call_bytes call) out.old }
    ensures back { IfSome result (λ n. call_in (take n out.new) ≡ Ok call) }
{
    match call {
        Call::Tap(time) => {
            let [a, b, c, d] = time.to_le_bytes();
            write(&[TAP, a, b, c, d], out)
        }
        Call::Back => write(&[BACK], out),
        Call::Cost => write(&[COST], out),
        Call::Read => write(&[READ], out),
    }
}

// A tap, by what follows its first byte.
fn decode_tap(time: &[u8]) -> Result<Call, Refusal>
    ensures { result ≡ tap_in time.now }
{
    let Some(time) = time.as_array::<4>() else {
        return Err(Refusal::Garbled(1 + time.len().min(4) as u32));
    };
    Ok(Call::Tap(u32::decode(time)))
}

// A call of one byte, if nothing follows it.
fn decode_alone(call: Call, rest: &[u8]) -> Result<Call, Refusal>
    ensures { result ≡ alone call rest.now }
{
    let [] = rest else {
        return Err(Refusal::Garbled(1));
    };
    Ok(call)
}
