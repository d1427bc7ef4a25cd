// Sets by their numbers.
use crate::BitSet;

#[test]
fn sets_have_their_numbers(rt: HostRuntime) {
    for i in 0..40usize {
        assert!(rt; BitSet::full().has(i) == (i < 32));
        assert!(rt; BitSet::only(5).has(i) == (i == 5));
        assert!(rt; !BitSet::only(33).has(i));
        assert!(rt; BitSet::full().without(31).has(i) == (i < 31));
        assert!(rt; !BitSet::only(5).without(5).has(i));
        assert!(rt; BitSet::only(5).without(37).has(i) == (i == 5));
    }
}

#[test]
fn the_first_is_the_smallest(rt: HostRuntime) {
    assert!(rt; BitSet::full().first() == Some(0));
    assert!(rt; BitSet::full().without(1).without(0).first() == Some(2));
    for i in 0..40usize {
        assert!(rt; BitSet::only(i).first() == (i < 32).then_some(i));
    }
}
