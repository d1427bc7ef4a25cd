// Lines that are asked and answered, by a desk that holds its words and by one whose words are borrowed; a limit that is too
// large, and too few words.
use crate::borrowed_desk::{BorrowedDesk, words_asked};
use crate::open_desk::OpenDesk;
use std::test::Fail;
use taps::refusal::Refusal;
use taps::worked::worked_book;

#[test]
fn lines_of_calls(rt: HostRuntime) -> Result<(), Fail> {
    let Ok(mut desk) = OpenDesk::new(worked_book(), 2) else {
        return Err(Fail::new("no desk"));
    };
    let told = desk.answer_lines(
        rt.alloc(),
        b"tap 0\ntap 240\r\ntap 300\n\n cost\nread\ntap 16777216\nclap",
    )?;
    assert!(rt;
        told.as_str()
            == "0\n1\nrefused 6 at 0\nrefused 1 at 3\n720\n6@500\nrefused 2 at 0\nrefused 1 at 7\n"
    );
    assert!(rt; OpenDesk::new(worked_book(), 257).err() == Some(Refusal::LimitTooLarge));
    Ok(())
}

#[test]
fn lines_over_borrowed_words(rt: HostRuntime) -> Result<(), Fail> {
    let book = &worked_book();
    assert!(rt; words_asked(book, 257) == Err(Refusal::LimitTooLarge));
    let Ok(words) = words_asked(book, 3) else {
        return Err(Fail::new("no words"));
    };
    let mut left = vec![in rt.alloc(); 7; words]?;
    let mut right = vec![in rt.alloc(); 7; words + 1]?;
    let opened = BorrowedDesk::open(book, 257, left.as_mut_slice(), right.as_mut_slice());
    assert!(rt; opened.err() == Some(Refusal::LimitTooLarge));
    let opened = BorrowedDesk::open(book, 3, &mut left.as_mut_slice()[1..], right.as_mut_slice());
    assert!(rt; opened.err() == Some(Refusal::MemoryTooSmall));
    assert!(rt;
        left.as_slice()
            .iter()
            .chain(right.as_slice())
            .all(|word| *word == 7)
    );
    let opened = BorrowedDesk::open(book, 3, left.as_mut_slice(), right.as_mut_slice());
    let Ok(mut desk) = opened else {
        return Err(Fail::new("no desk"));
    };
    let told = desk.answer_lines(rt.alloc(), b"back\ntap 0\ntap 350\ntap 850\nread\ntap 900")?;
    assert!(rt; told.as_str() == "refused 5 at 0\n0\n1\n2\n6@500 12@500\nrefused 6 at 0\n");
    let told = desk.answer_lines(rt.alloc(), b"cost\nback\n?\nread")?;
    assert!(rt; told.as_str() == "1800\n2\nrefused 1 at 2\n12@400\n");
    assert!(rt; right.as_slice()[words] == 7);
    Ok(())
}
