// A book with comments, and faults with their lines.
use crate::fault::{Fault, Reason};
use crate::parse_book;
use std::test::Fail;

const BOOK: &[u8] =
    b"# two kinds\n\nquarter 12, weight 0\n  eighth-note 6,  weight 600\r\n# beats of half a second\ntempi 500 750\nchange 20\n\n# the end";

#[test]
fn book_with_comments(rt: HostRuntime) -> Result<(), Fail> {
    let Ok(book) = parse_book(BOOK) else {
        return Err(Fail::new("no book"));
    };
    let [quarter, eighth] = book.kinds.list.as_slice() else {
        return Err(Fail::new("other kinds"));
    };
    assert_eq!(rt; (quarter.ticks, quarter.weight), (12, 0));
    assert_eq!(rt; (eighth.ticks, eighth.weight), (6, 600));
    assert!(rt; book.tempi.list.as_slice() == [500, 750].as_slice());
    assert_eq!(rt; book.change, 20);
    Ok(())
}

#[test]
fn faults_with_their_lines(rt: HostRuntime) {
    let faults: [(&[u8], usize, Reason); 12] = [
        (b"", 0, Reason::Unfinished),
        (b"# none\n\na 1, weight 0\n", 3, Reason::Unfinished),
        (b"a 1, weight 0\ntempi 100", 2, Reason::Unfinished),
        (b"\nchange 1, weight 0", 1, Reason::NoKind),
        (b"a 1 , weight 0", 0, Reason::NoKind),
        (b"a 97, weight 0", 0, Reason::KindBounds),
        (b"a 1, weight 99999999999999999999", 0, Reason::KindBounds),
        (b"tempi 500", 0, Reason::KindsMissing),
        (b"a 1, weight 0\n#\ntempi 500 500", 2, Reason::BadTempi),
        (
            b"a 1, weight 0\ntempi 500\nchange 65536",
            2,
            Reason::BadChange,
        ),
        (b"a 1, weight 0\ntempi 500\ntempi 600", 2, Reason::BadChange),
        (
            b"a 1, weight 0\ntempi 500\nchange 0\n\nchange 0",
            4,
            Reason::Behind,
        ),
    ];
    for (text, line, reason) in faults {
        let fault = Fault { line, reason };
        assert!(rt; parse_book(text).err() == Some(fault));
    }
}

#[test]
fn fault_as_text(rt: HostRuntime) -> Result<(), Fail> {
    let fault = Fault {
        line: 3,
        reason: Reason::KindBounds,
    };
    let text = format!(in rt.alloc(); "{fault}")?;
    assert!(rt; text.as_str() == "line 4: a kind has 1 to 96 ticks and a weight below 16777216");
    Ok(())
}
