// Reads cases from the standard input, one a line, and answers each with a line.
#![tactic(auto)]

mod case;
mod desk;
mod fault;
mod fills;
mod kind;
mod line;
mod lists;
mod offsets;
mod page;
mod read;
mod searches;
mod session;
mod texts;
mod trouble;
mod word;

use session::Session;
use std::io::{BufRead, BufReader, BufWriter, Write};
use std::process::ExitCode;
use trouble::Trouble;

fn replay(rt: &HostRuntime, session: &mut Session, out: &mut impl Write) -> Result<(), Trouble> {
    for line in BufReader::new(rt.alloc(), rt.stdin())?.split(rt.alloc(), b'\n') {
        out.write_all(session.answer(line?.as_slice())?.as_bytes())?;
    }
    out.flush()?;
    Ok(())
}

fn run(rt: &HostRuntime) -> Result<(), Trouble> {
    let mut session = Session::new(rt.alloc());
    let mut out = BufWriter::new(rt.alloc(), rt.stdout())?;
    replay(rt, &mut session, &mut out)
}

fn main(rt: HostRuntime) -> ExitCode {
    match run(&rt) {
        Ok(()) => ExitCode::SUCCESS,
        Err(trouble) => {
            let _ = eprintln!(rt; "replay: {trouble}");
            ExitCode::FAILURE
        }
    }
}
