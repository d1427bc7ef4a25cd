// What holds of all readings: that the definitions of readings mean what people want of them.
//
// The crate `taps` defines what a reading costs, the least and the reading told by loops over all kinds and tempi. Here
// the plain book is a general reader of the crate `least` (`specs/Plain.antt`), from whose laws six statements follow:
// the reading told is the best, and the first of those; and how the least goes with the taps and the book. Two lists of
// taps are worked out besides (`specs/Worked.antt`). A function here has no code: its contract is a statement, which is
// proved. Read `specs/Statements.antt` first, and then `plain_stands`.
#![tactic(auto)]

ghost use Rattle.statements.specs.Plain.{Plain, Finite, Tried};
ghost use Rattle.statements.specs.Statements.{Least, First, AsWritten, Later, More, ALittleOff};
ghost use Rattle.statements.specs.Worked.{TwoTaps, OneTap};

// The definitions are the general reader's, for the plain book.
pub fn plain_stands()
    ensures same { Plain }
    ensures finite { Finite }
    ensures tried { Tried }
{}

// Nobody reads better: the reading told is one and costs the least, and none costs less.
pub fn least_stands()
    ensures { Least }
{}

// Of the readings that cost so little the one told is the first.
pub fn first_stands()
    ensures { First }
{}

// What is played as written costs nothing.
pub fn as_written_stands()
    ensures { AsWritten }
{}

// All taps later by as much: the same reading, and the same least.
pub fn later_stands()
    ensures { Later }
{}

// More kinds or tempi never cost more.
pub fn more_stands()
    ensures { More }
{}

// One tap x ms later: at most 24 times x more or less.
pub fn a_little_off_stands()
    ensures { ALittleOff }
{}

// Taps at 0 and 240 cost 720 in the worked book, and are read as 6@500.
pub fn two_taps_stands()
    ensures { TwoTaps }
{}

// One tap costs nothing, and has no reading.
pub fn one_tap_stands()
    ensures { OneTap }
{}
