// The program `price`: what a reading of taps costs, gap by gap.
//
// The crate `pricing` reads the two lines and counts, and promises what is told; `options` reads the command line. What is
// here reads and prints, which is run and compared.

use anyhow::{Result, anyhow};
use options::{Options, read_options};
use pricing::price::price;
use std::fs;
use std::io::Read;
use std::process::ExitCode;

const HELP: &str = "usage: price [--book FILE] [INPUT]

Counts what a reading of taps costs. The file INPUT, or standard input, has two lines:
the times of the taps, in ms, and a note for each gap between two, by its ticks and
its tempo; `none` where there is no gap:

  0 500 1000 1600
  12@500 12@500 12@600

For each gap its note is told and what it costs, and last what all cost:

  12@500 0
  12@500 0
  12@600 1300
  all 1300

A gap costs how far 12 times its ms are from the note's ticks times the tempo, and
the weight of its kind, and, but for the first gap, what the change of tempo costs for
each ms. A note is the lightest kind of the book with so many ticks.

There may be up to 256 taps. FILE has a book, as lines: up to 32 kinds of notes, up to
64 tempi, and what a change of tempo costs. With none, the notes are read by the
built-in one, which `desk --help` tells.";

fn main(rt: HostRuntime) -> ExitCode {
    let Err(error) = run(&rt) else {
        return ExitCode::SUCCESS;
    };
    // Where this can't be written either, the status says it alone.
    let _ = eprintln!(rt; "price: {error}");
    ExitCode::FAILURE
}

fn run(rt: &HostRuntime) -> Result<()> {
    let Some(options) = read_options(rt, false)? else {
        return Ok(println!(rt; "{HELP}")?);
    };
    let Options { book, input, .. } = options;
    let input = match input {
        Some(path) => read_file(rt, path.as_str())?,
        None => read_input(rt)?,
    };
    let costs = price(&book, input.as_slice())?;
    Ok(println!(rt; "{costs}")?)
}

fn read_file(rt: &HostRuntime, path: &str) -> Result<Vec<u8>> {
    fs::read(rt, path).map_err(|error| anyhow!("{path}: {error}"))
}

fn read_input(rt: &HostRuntime) -> Result<Vec<u8>> {
    let mut input = Vec::new(rt.alloc());
    rt.reader().read_to_end(&mut input)?;
    Ok(input)
}
