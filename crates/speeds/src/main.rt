// Does calls over the sheet at the standard input, and tells what each gives and, where that is asked, how long it takes.
#![tactic(auto)]

mod answer;
mod call;
mod desk;
mod rows;
mod trouble;
mod turns;

use anystr::bytes::Bytes;
use call::Call;
use rows::ROWS;
use std::env;
use std::io::{BufWriter, Read, Write};
use std::process::ExitCode;
use trouble::Trouble;
use turns::take_turns;

// How many turns the words ask to be timed; none where they ask for no times.
fn read_turns(words: &[String]) -> Result<Option<u32>, Trouble> {
    let Some(word) = words.get(1) else {
        return Ok(None);
    };
    Ok(Some(word.as_str().parse::<u32>()?))
}

// Writes what the row's call gives; and on the standard error, where turns are timed, the least and the middle time.
fn write_row(
    rt: &HostRuntime,
    row: &str,
    turns: Option<u32>,
    sheet: &mut [u8],
    out: &mut impl Write,
) -> Result<(), Trouble> {
    let call = Call::read(row).ok_or(Trouble::NoCall)?;
    let taken = take_turns(rt, call, turns.unwrap_or(1), sheet)?;
    writeln!(out, "{} {row}", taken.number)?;
    if turns.is_some() {
        eprintln!(rt; "{} {} {row}", taken.least, taken.median)?;
    }
    Ok(())
}

fn run(rt: &HostRuntime) -> Result<(), Trouble> {
    let words: Vec<String> = env::args(rt)?.collect(rt.alloc())?;
    let turns = read_turns(words.as_slice())?;
    let mut sheet = Vec::new(rt.alloc());
    rt.stdin().read_to_end(&mut sheet)?;
    Bytes::check(sheet.as_slice())?;
    let mut out = BufWriter::new(rt.alloc(), rt.stdout())?;
    if words.len() > 2 {
        for row in words.iter().skip(2) {
            write_row(rt, row.as_str(), turns, sheet.as_mut_slice(), &mut out)?;
        }
    } else {
        for row in ROWS {
            write_row(rt, row, turns, sheet.as_mut_slice(), &mut out)?;
        }
    }
    Ok(out.flush()?)
}

// As in `replay`, with this program's name: no crate lies between the two.
fn main(rt: HostRuntime) -> ExitCode {
    match run(&rt) {
        Ok(()) => ExitCode::SUCCESS,
        Err(trouble) => {
            let _ = eprintln!(rt; "speeds: {trouble}");
            ExitCode::FAILURE
        }
    }
}
