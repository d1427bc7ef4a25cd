// The book for whoever has none of their own, which is `books/all.book`: there it stands what it suits, and why each
// weight.
ghost use Rattle.std.specs.Prelude.{◌≡◌};
ghost use Rattle.taps.specs.BuiltIn.{built_in};
ghost use Rattle.taps.specs.Values.{book_of};

use crate::book::Book;
use crate::kind::Kind;
use crate::kinds::Kinds;
use crate::listed::Listed;
use crate::tempi::Tempi;

const KINDS: [Kind; 9] = [
    Kind {
        ticks: 12,
        weight: 0,
    },
    Kind {
        ticks: 6,
        weight: 180,
    },
    Kind {
        ticks: 24,
        weight: 300,
    },
    Kind {
        ticks: 18,
        weight: 720,
    },
    Kind {
        ticks: 3,
        weight: 180,
    },
    Kind {
        ticks: 4,
        weight: 180,
    },
    Kind {
        ticks: 9,
        weight: 600,
    },
    Kind {
        ticks: 8,
        weight: 540,
    },
    Kind {
        ticks: 36,
        weight: 1020,
    },
];

const TEMPI: [u16; 31] = [
    380, 395, 410, 425, 440, 460, 480, 500, 520, 540, 560, 580, 600, 625, 650, 675, 700, 725, 750,
    780, 810, 840, 875, 910, 945, 980, 1020, 1060, 1100, 1150, 1200,
];

#[tactic(auto, unfolding(crate::specs::Promise::good_tempi))]
pub fn built_in_book() -> Book
    ensures { book_of result ≡ built_in }
{
    Book {
        kinds: Kinds {
            list: Listed::from_array(KINDS),
        },
        tempi: Tempi {
            list: Listed::from_array(TEMPI),
        },
        change: 13,
    }
}
