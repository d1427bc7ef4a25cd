// Why a call is not taken. The numbers are the order in which the checks run: the first that applies is told.
ghost use Rattle.std.specs.Prelude.{◌≡◌, Some};
ghost use Rattle.taps.specs.Values.{Tells, number_of, place_of, refusal_text};

use std::fmt;

#[derive(Clone, Copy, PartialEq, Eq, Debug)]
pub enum Refusal {
    // 1: a call that can't be read, at the first byte that doesn't fit.
    Garbled(u32),
    // 2: a time of 2^24 ms or later.
    TooLate,
    // 3 at 0: no book, when a desk is opened.
    NoBook,
    // 3 at 1: a limit above 256 taps.
    LimitTooLarge,
    // 3 at 2: less memory than is asked for.
    MemoryTooSmall,
    // 4: a tap that isn't later than the last.
    NotLater,
    // 5: taking back when there is no tap.
    NoTap,
    // 6: more taps than the limit.
    TooManyTaps,
}

impl Refusal {
    pub fn number(self) -> u32
        ensures { result ≡ number_of self }
    {
        match self {
            Refusal::Garbled(_) => 1,
            Refusal::TooLate => 2,
            Refusal::NoBook | Refusal::LimitTooLarge | Refusal::MemoryTooSmall => 3,
            Refusal::NotLater => 4,
            Refusal::NoTap => 5,
            Refusal::TooManyTaps => 6,
        }
    }

    pub fn place(self) -> u32
        ensures { result ≡ place_of self }
    {
        match self {
            Refusal::Garbled(place) => place,
            Refusal::LimitTooLarge => 1,
            Refusal::MemoryTooSmall => 2,
            _ => 0,
        }
    }
}

// A number and a place that no refusal of the list tells.
#[derive(Clone, Copy, PartialEq, Eq, Debug)]
pub struct Unlisted;

// By number and place.
impl TryFrom<(u32, u32)> for Refusal {
    type Error = Unlisted;

    ghost try_from_gives = { Tells };

    fn try_from((number, place): (u32, u32)) -> Result<Refusal, Unlisted> {
        match (number, place) {
            (1, _) => Ok(Refusal::Garbled(place)),
            (2, 0) => Ok(Refusal::TooLate),
            (3, 0) => Ok(Refusal::NoBook),
            (3, 1) => Ok(Refusal::LimitTooLarge),
            (3, 2) => Ok(Refusal::MemoryTooSmall),
            (4, 0) => Ok(Refusal::NotLater),
            (5, 0) => Ok(Refusal::NoTap),
            (6, 0) => Ok(Refusal::TooManyTaps),
            _ => Err(Unlisted),
        }
    }
}

impl fmt::Display for Refusal {
    ghost output = { λ refusal. Some (refusal_text refusal) };

    fn fmt<W: fmt::Write>(&self, f: &mut fmt::Formatter<W>) -> fmt::Result {
        write!(f, "refused {} at {}", self.number(), self.place())
    }
}
