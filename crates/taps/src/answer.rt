// What a desk says to a call.
ghost use Rattle.taps.specs.Values.{Told};

use crate::read::Reading;
use crate::refusal::Refusal;

#[derive(Clone, Copy)]
pub enum Answer {
    // The call was not taken, and nothing changed.
    Refused(Refusal),
    // A tap's number, how many taps are left, or a cost.
    Number(u64),
    // The first best reading.
    Reads(Reading),
}

// What a tap, or taking one back, is answered.
impl From<Result<usize, Refusal>> for Answer {
    ghost from_gives = { Told };

    fn from(taken: Result<usize, Refusal>) -> Answer {
        match taken {
            Ok(number) => Answer::Number(number as u64),
            Err(refusal) => Answer::Refused(refusal),
        }
    }
}
