// Costs worked by hand, in the worked book.
use crate::{fill, first_met};
use bitset::BitSet;
use taps::read::{Read, TOO_MUCH};
use taps::worked::worked_book;

#[test]
fn rows_have_the_least_of_the_kinds_allowed(rt: HostRuntime) {
    let book = worked_book();
    let mut words = [7; 8];
    fill(&book, BitSet::full(), 240, &mut words[2..6]);
    assert!(rt; words == [7, 7, 1080, 720, 1320, 2220, 7, 7]);
    fill(&book, BitSet::full().without(1), 240, &mut words[2..6]);
    assert!(rt; words == [7, 7, 1920, 3120, 3480, 3030, 7, 7]);
    fill(&book, BitSet::only(3), 240, &mut words[2..6]);
    assert!(rt; words == [7, 7, 7320, 9720, 12120, 15720, 7, 7]);
    fill(&book, BitSet::only(6), 240, &mut words[2..6]);
    assert!(rt; words == [7, 7, TOO_MUCH, TOO_MUCH, TOO_MUCH, TOO_MUCH, 7, 7]);
}

#[test]
fn the_first_read_by_kinds_and_then_by_tempi(rt: HostRuntime) {
    let book = worked_book();
    let all = BitSet::full();
    let eighth = Some(Read { kind: 1, tempo: 1 });
    assert!(rt; first_met(&book, all, None, 240, &[0; 4], 720) == eighth);
    assert!(rt; first_met(&book, all, Some(3), 240, &[0; 4], 5720) == eighth);
    assert!(rt; first_met(&book, all, None, 240, &[0; 4], 719).is_none());
    assert!(rt; first_met(&book, all.without(1), None, 240, &[0; 4], 720).is_none());
    // a number of the set that is no kind of the book
    assert!(rt; first_met(&book, BitSet::only(6), None, 240, &[0; 4], 720).is_none());
    // the first tempo of two: 6@400 and 6@500
    assert!(rt;
        first_met(&book, all, None, 240, &[0, 360, 0, 0], 1080) == Some(Read { kind: 1, tempo: 0 })
    );
    // the first kind of two: 3@750 and 6@400
    assert!(rt;
        first_met(&book, all, None, 240, &[1950, 0, 0, 0], 3030) == Some(Read { kind: 0, tempo: 3 })
    );
    assert!(rt;
        first_met(&book, all.without(0), None, 240, &[1950, 0, 0, 0], 3030)
            == Some(Read { kind: 1, tempo: 0 })
    );
}
