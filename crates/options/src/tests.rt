// The order of words, and each way in which they can't be understood.
use crate::request::{Asked, parse_options};
use std::alloc::AllocError;
use std::test::Fail;

// What words ask for, as the book, the limit and the input, or why they can't be understood.
fn told(rt: &HostRuntime, words: &[&str], takes_limit: bool) -> Result<String, AllocError> {
    let mut all = Vec::new(rt.alloc());
    for word in words {
        all.push(String::from_str(rt.alloc(), word)?)?;
    }
    match parse_options(all.as_slice(), takes_limit) {
        Ok(Asked::Help) => format!(in rt.alloc(); "help"),
        Ok(Asked::Run(request)) => {
            let book = request.book.unwrap_or("built-in");
            let limit = request.limit;
            let input = request.input.unwrap_or("standard");
            format!(in rt.alloc(); "{book} {limit} {input}")
        }
        Err(bad) => format!(in rt.alloc(); "{bad}"),
    }
}

#[test]
fn any_order(rt: HostRuntime) -> Result<(), Fail> {
    let cases: [(&[&str], &str); 6] = [
        (&[], "built-in 256 standard"),
        (&["calls", "--limit", "7", "--book", "b"], "b 7 calls"),
        (
            &["--book", "a", "--limit", "3", "./-x", "--limit", "256"],
            "a 256 ./-x",
        ),
        (&["--book", "a", "--book", "b", "--limit", "0", ""], "b 0 "),
        (&["--book", "--help", "--limit", "5"], "--help 5 standard"),
        (&["one", "-h", "two", "--limit"], "help"),
    ];
    for (words, expected) in cases {
        assert!(rt; told(&rt, words, true)?.as_str() == expected);
    }
    Ok(())
}

#[test]
fn first_that_fails(rt: HostRuntime) -> Result<(), Fail> {
    let cases: [(&[&str], bool, &str); 7] = [
        (&["one", "--book"], true, "--book wants a file"),
        (&["--limit"], true, "--limit wants a number of taps"),
        (
            &["--limit", "257", "-x"],
            true,
            "--limit takes a number up to 256, and not 257",
        ),
        (
            &["--limit", "-h", "-h"],
            true,
            "--limit takes a number up to 256, and not -h",
        ),
        (&["--limit", "5"], false, "unknown option --limit"),
        (&["-", "one", "two"], true, "unknown option -"),
        (&["one", "two", "--help"], true, "more than one file"),
    ];
    for (words, takes_limit, expected) in cases {
        assert!(rt; told(&rt, words, takes_limit)?.as_str() == expected);
    }
    Ok(())
}
