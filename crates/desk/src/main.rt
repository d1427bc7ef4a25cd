// The program `desk`: answers calls, a line each, by a line each.
//
// The crate `lines` holds the desk, and promises what the lines of a text are answered; `options` reads the command line.
// What is here reads and prints, which is run and compared: a file of calls is answered as a whole
// (`BorrowedDesk::answer_lines`), standard input line by line. The desk's words lie on the heap, as many as its book and its
// limit ask for, so that a small stack will do.

use anyhow::{Result, anyhow};
use lines::borrowed_desk::{BorrowedDesk, words_asked};
use lines::reply::ReplyLine;
use options::{Options, read_options};
use std::fs;
use std::io::{self, BufRead, BufReader};
use std::process::ExitCode;

const HELP: &str = "usage: desk [--book FILE] [--limit N] [CALLS]

Answers the calls of the file CALLS, or of standard input as they come, a line for each:

  tap TIME   a tap at TIME ms, later than the last: its number, from 0
  back       the last tap is taken back: how many are left
  cost       what the best reading costs
  read       the first best reading, as in `12@500 6@500`: for each gap a note's
             ticks and a tempo; `none` where there is no gap

A call that is not taken changes nothing and is answered `refused NUMBER at PLACE`:

  1  the line can't be read; the place is the line's number, from 0
  2  the time is 2^24 ms or later
  4  the tap is not later than the last
  5  there is no tap to take back
  6  there are N taps already

N is how many taps are taken, up to 256; without it 256. FILE has a book, as lines: up
to 32 kinds of notes, up to 64 tempi, and what a change of tempo costs. With none, the
notes are read by the built-in one:

  quarter 12, weight 0
  eighth 6, weight 180
  half 24, weight 300
  dotted-quarter 18, weight 720
  sixteenth 3, weight 180
  eighth-triplet 4, weight 180
  dotted-eighth 9, weight 600
  quarter-triplet 8, weight 540
  dotted-half 36, weight 1020
  tempi 380 395 410 425 440 460 480 500 520 540 560 580 600 625 650 675 700 725 750 \
780 810 840 875 910 945 980 1020 1060 1100 1150 1200
  change 13";

fn main(rt: HostRuntime) -> ExitCode {
    let Err(error) = run(&rt) else {
        return ExitCode::SUCCESS;
    };
    // Where this can't be written either, the status says it alone.
    let _ = eprintln!(rt; "desk: {error}");
    ExitCode::FAILURE
}

fn run(rt: &HostRuntime) -> Result<()> {
    let Some(options) = read_options(rt, true)? else {
        return Ok(println!(rt; "{HELP}")?);
    };
    let Options { book, limit, input } = options;
    let words = words_asked(&book, limit).map_err(|refusal| anyhow!("no desk: {refusal}"))?;
    let mut left = vec![in rt.alloc(); 0; words]?;
    let mut right = vec![in rt.alloc(); 0; words]?;
    let opened = BorrowedDesk::open(&book, limit, left.as_mut_slice(), right.as_mut_slice());
    let desk = &mut opened.map_err(|refusal| anyhow!("no desk: {refusal}"))?;
    match input {
        Some(path) => answer_file(rt, desk, path.as_str()),
        None => Ok(answer_input(rt, desk)?),
    }
}

fn answer_file(rt: &HostRuntime, desk: &mut BorrowedDesk<'_>, path: &str) -> Result<()> {
    let calls = fs::read(rt, path).map_err(|error| anyhow!("{path}: {error}"))?;
    let told = desk.answer_lines(rt.alloc(), calls.as_slice())?;
    Ok(print!(rt; "{told}")?)
}

// Each answer is out before the next line is waited for.
fn answer_input(rt: &HostRuntime, desk: &mut BorrowedDesk<'_>) -> io::Result<()> {
    let input = BufReader::new(rt.alloc(), rt.stdin())?;
    let book = desk.book;
    for (number, line) in input.split(rt.alloc(), b'\n').enumerate() {
        let reply = &desk.answer_line(line?.as_slice(), number);
        println!(rt; "{}", ReplyLine { book, reply })?;
    }
    Ok(())
}
