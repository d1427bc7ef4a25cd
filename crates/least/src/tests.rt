// The least of a row and its first place, where it is met first, last, twice and not at all.
use crate::{first_least, least_of};

#[test]
fn least_numbers(rt: HostRuntime) {
    assert_eq!(rt; least_of(&[7, 3, 9, 3]), Some(3));
    assert_eq!(rt; least_of(&[0, 5]), Some(0));
    assert_eq!(rt;
        least_of(&[18446744073709551615]),
        Some(18446744073709551615)
    );
    assert_eq!(rt; least_of(&[]), None);
}

#[test]
fn first_places(rt: HostRuntime) {
    assert_eq!(rt; first_least(&[7, 3, 9, 3]), Some(1));
    assert_eq!(rt; first_least(&[4, 4, 4]), Some(0));
    assert_eq!(rt; first_least(&[6, 5, 4]), Some(2));
    assert_eq!(rt; first_least(&[]), None);
}
