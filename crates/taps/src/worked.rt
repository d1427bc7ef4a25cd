// A book that is small enough to count by hand, which is `books/worked.book`: in documents, theorems and tests it reads
// the taps whose readings are worked out.
ghost use Rattle.std.specs.Prelude.{◌≡◌};
ghost use Rattle.taps.specs.Worked.{worked};
ghost use Rattle.taps.specs.Values.{book_of};

use crate::book::Book;
use crate::kind::Kind;
use crate::kinds::Kinds;
use crate::listed::Listed;
use crate::tempi::Tempi;

const KINDS: [Kind; 6] = [
    Kind {
        ticks: 3,
        weight: 2400,
    },
    Kind {
        ticks: 6,
        weight: 600,
    },
    Kind {
        ticks: 12,
        weight: 0,
    },
    Kind {
        ticks: 24,
        weight: 600,
    },
    Kind {
        ticks: 8,
        weight: 3000,
    },
    Kind {
        ticks: 4,
        weight: 3600,
    },
];

const TEMPI: [u16; 4] = [400, 500, 600, 750];

#[tactic(auto, unfolding(crate::specs::Promise::good_tempi))]
pub fn worked_book() -> Book
    ensures { book_of result ≡ worked }
{
    Book {
        kinds: Kinds {
            list: Listed::from_array(KINDS),
        },
        tempi: Tempi {
            list: Listed::from_array(TEMPI),
        },
        change: 20,
    }
}
