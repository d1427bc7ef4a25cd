// What two passes find, beside what trying every tempo for every tempo finds; and rows worked by hand.
ghost use Rattle.std.specs.Prelude.{◌^◌, ◌<◌, All};

use crate::{first_source, shift};

const TEMPI: [u16; 4] = [400, 500, 600, 750];

// The least at a place and where it comes from first, by trying each tempo, the last one first.
fn tried(change: u32, row: &[u64; 4], at: usize) -> (u64, usize)
    requires { at < 4 }
{
    let mut least = u64::MAX;
    let mut first = 0;
    for t in (0..4).rev() {
        let apart = u64::from(TEMPI[at].abs_diff(TEMPI[t]));
        let cost = row[t].saturating_add(u64::from(change) * apart);
        if cost <= least {
            least = cost;
            first = t;
        }
    }
    (least, first)
}

// Whether the two agree on a row, at each of its places.
fn agrees(change: u32, row: [u64; 4]) -> bool
    requires { All (λ v. v < 2 ^ 63) row }
{
    let mut new = row;
    shift(&TEMPI, change, &mut new);
    for at in 0..4 {
        if (new[at], first_source(&TEMPI, change, &row, at)) != tried(change, &row, at) {
            return false;
        }
    }
    true
}

#[test]
fn two_passes_find_what_trying_finds(rt: HostRuntime) {
    for change in [0, 1, 20, 65_535, u32::MAX] {
        assert!(rt; agrees(change, [0, 0, 0, 0]));
        assert!(rt; agrees(change, [7, 5, 5, 9]));
        assert!(rt; agrees(change, [0, 3000, 2000, 9000]));
        assert!(rt; agrees(change, [9000, 7000, 3000, 0]));
        assert!(rt; agrees(change, [2000, 0, 2000, 5000]));
        assert!(rt; agrees(change, [u64::MAX / 2, 12, u64::MAX / 2, u64::MAX / 2]));
    }
}

#[test]
fn a_row_in_the_middle_of_words(rt: HostRuntime) {
    let mut words = [7, 7, 5000, 0, 9000, 1, 7];
    shift(&TEMPI, 20, &mut words[2..6]);
    assert!(rt; words == [7, 7, 2000, 0, 2000, 1, 7]);
}

#[test]
fn the_first_of_equal_sources(rt: HostRuntime) {
    assert!(rt; first_source(&TEMPI, 20, &[5000, 0, 9000, 1], 2) == 1);
    assert!(rt; first_source(&TEMPI, 20, &[0, 9000, 0, 9000], 1) == 0);
    assert!(rt; first_source(&TEMPI, 0, &[4, 4, 4, 4], 3) == 0);
}
