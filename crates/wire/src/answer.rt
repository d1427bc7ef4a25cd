// Answers as bytes.
ghost use Rattle.std.specs.Prelude.{◌≡◌};
ghost use Rattle.std.specs.Option.{option_map};
ghost use Rattle.taps.specs.Calls.{reads};
ghost use Rattle.taps.specs.Readings as readings;
ghost use Rattle.taps.specs.Values.{answer_of, read_of, reading_of};
ghost use Rattle.octets.specs.Bytes.{room, written};
ghost use Rattle.wire.specs.Wire.{answer_bytes, answer_in, in_place, number_in, read_bytes, read_in, reads_in, refused_in};

use octets::number::Number;
use octets::pieces::{Format, decode_all, encode_all};
use octets::write;
use taps::answer::Answer;
use taps::read::{MOST_GAPS, Read, Reading};
use taps::refusal::Refusal;

// The first byte of a refusal.
const REFUSED: u8 = 0;
// The first byte of a number.
const NUMBER: u8 = 1;
// The first byte of a reading.
const READS: u8 = 2;
// The first byte and a count stand before a reading.
const HEAD_SIZE: usize = 3;
// A gap's kind and its tempo.
const READ_SIZE: usize = 2;

// The answer that the bytes are, where they are one.
pub fn decode_answer(bytes: &[u8]) -> Option<Answer>
    ensures { option_map answer_of result ≡ answer_in bytes.now }
{
    let [first, rest @ ..] = bytes else {
        return None;
    };
    match *first {
        REFUSED => decode_refused(rest),
        NUMBER => decode_number(rest),
        READS => decode_reads(rest),
        _ => None,
    }
}

// Writes an answer, and says how many bytes it took.
pub fn encode_answer(answer: Answer, out: &mut [u8]) -> Option<usize>
    ensures value { result ≡ room (answer_bytes (answer_of answer)) out.old }
    ensures after { out.new ≡ written (answer_bytes (answer_of answer)) out.old }
{
    match answer {
        Answer::Refused(refusal) => {
            let [a, b, c, d] = refusal.number().to_le_bytes();
            let [e, f, g, h] = refusal.place().to_le_bytes();
            write(&[REFUSED, a, b, c, d, e, f, g, h], out)
        }
        Answer::Number(number) => {
            let [a, b, c, d, e, f, g, h] = number.to_le_bytes();
            write(&[NUMBER, a, b, c, d, e, f, g, h], out)
        }
        Answer::Reads(reading) => encode_reads(&reading, out),
    }
}

// Writes a reading behind the number of its gaps.
fn encode_reads(reading: &Reading, out: &mut [u8]) -> Option<usize>
    ensures value { result ≡ room (answer_bytes (reads (reading_of reading.now))) out.old }
    ensures after { out.new ≡ written (answer_bytes (reads (reading_of reading.now))) out.old }
{
    let reads = reading.as_slice();
    let size = HEAD_SIZE + READ_SIZE * reads.len();
    let (front, _) = out.split_at_mut_checked(size)?;
    front[0] = READS;
    front[1..HEAD_SIZE].copy_from_slice(&(reads.len() as u16).to_le_bytes());
    encode_all::<ReadBytes, READ_SIZE>(reads, &mut front[HEAD_SIZE..]);
    Some(size)
}

// A refusal of the list, by its number and its place.
fn decode_refused(parts: &[u8]) -> Option<Answer>
    ensures { option_map answer_of result ≡ refused_in parts.now }
{
    let (number, rest) = parts.split_first_chunk::<4>()?;
    let place = rest.as_array::<4>()?;
    let refusal = Refusal::try_from((u32::decode(number), u32::decode(place))).ok()?;
    Some(Answer::Refused(refusal))
}

fn decode_number(number: &[u8]) -> Option<Answer>
    ensures { option_map answer_of result ≡ number_in number.now }
{
    let number = number.as_array::<8>()?;
    Some(Answer::Number(u64::decode(number)))
}

// A reading behind the number of its gaps.
fn decode_reads(counted: &[u8]) -> Option<Answer>
    ensures { option_map answer_of result ≡ reads_in counted.now }
{
    let (count, rest) = counted.split_first_chunk::<2>()?;
    if rest.len() != READ_SIZE * usize::from(u16::decode(count)) {
        return None;
    }
    let (pairs, _) = rest.as_chunks::<READ_SIZE>();
    decode_all::<ReadBytes, READ_SIZE, MOST_GAPS>(pairs).map(Answer::Reads)
}

// How a gap is read: its kind and its tempo, a byte each.
struct ReadBytes;

impl Format<READ_SIZE> for ReadBytes {
    type Item = Read;

    ghost Value = { readings.Read };

    ghost value_of = { read_of };

    ghost bytes_of = { read_bytes };

    ghost value_in = { read_in };

    ghost good = { in_place };

    fn blank() -> Read {
        Read { kind: 0, tempo: 0 }
    }

    fn decode(pair: &[u8; READ_SIZE]) -> Option<Read> {
        Read::new(pair[0], pair[1])
    }

    fn encode(read: &Read) -> [u8; READ_SIZE] {
        [read.kind, read.tempo]
    }
}
