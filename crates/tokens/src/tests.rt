// Lines, tokens and numbers.
use crate::{parse_number, split_line, split_token};
use std::test::Fail;

#[test]
fn texts(rt: HostRuntime) -> Result<(), Fail> {
    assert!(rt; split_line(b"tap 5\r\nback") == Some((b"tap 5\r".as_slice(), b"back".as_slice())));
    assert!(rt; split_line(b"\n") == Some((b"".as_slice(), b"".as_slice())));
    assert!(rt; split_line(b"") == None);
    assert!(rt; split_token(b" \ttap  5") == Some((b"tap".as_slice(), b" 5".as_slice())));
    assert!(rt; split_token(b" \r\t") == None);
    assert!(rt; parse_number(b"0500") == Some(500));
    assert!(rt; parse_number(b"18446744073709551616") == Some(u32::MAX));
    assert!(rt; parse_number(b"") == None);
    assert!(rt; parse_number(b"-5") == None);
    Ok(())
}
