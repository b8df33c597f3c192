// Reads a harbour's sheet, and shows its rows and fields, the rows that deviate, or what a method
// gives on it.
#![tactic(auto)]

mod answer;
mod asked;
mod compare;
mod cut;
mod edit;
mod hyphens;
mod input;
mod listing;
mod page;
mod refused;
mod stop;
mod trouble;
mod view;
mod words;

use answer::show;
use anystr::bytes::Bytes;
use asked::{Ask, Manner, read_asked};
use clap::error::ErrorKind;
use clap::{ArgMatches, Error};
use hyphens::guarded;
use input::read_sheet;
use page::Page;
use std::alloc::Global;
use std::env::{Env, FillError};
use std::process::ExitCode;
use std::{env, io};
use stop::Stop;
use text::Text;
use trouble::Trouble;
use words::{nearest, program};

// The words, the program's name first; none at all where only the name was given, which need not be
// text.
fn read_words(rt: &HostRuntime) -> io::Result<Vec<String>> {
    if let Err(FillError::NotPresent) = rt.arg(1, &mut []) {
        return Ok(Vec::new(rt.alloc()));
    }
    Ok(env::args(rt)?.collect(rt.alloc())?)
}

// What is wrong with the words: where the first is none of the program's, but near to one, this is
// what it says.
fn misused<'a>(heap: Global, words: &'a [String], error: Error) -> Trouble<'a> {
    if error.kind() == ErrorKind::UnknownArgument {
        if let [_, word, ..] = words {
            if let Ok(Some(near)) = nearest(heap, word.as_str()) {
                if near != word.as_str() {
                    return Trouble::NoWord {
                        word: word.as_str(),
                        near,
                    };
                }
            }
        }
    }
    Trouble::Misused(error)
}

// The sheet is shown by its characters where it is well-formed text, and else, or where that is
// asked, by its bytes. A match, here and where else bytes may be text: no closure takes both kinds.
fn show_sheet<'a>(
    page: &mut Page,
    sheet: &'a [u8],
    words: &[String],
    manner: &Manner<'_>,
    ask: &'a Ask,
) -> Result<bool, Stop> {
    let bytes = Bytes::new(sheet);
    match Text::try_from(sheet) {
        Ok(text) if !manner.bytes => show(page, &text, Ok(()), words, manner, ask),
        Ok(_) => show(page, &bytes, Ok(()), words, manner, ask),
        Err(refusal) => show(page, &bytes, Err(refusal), words, manner, ask),
    }
}

// Writes a page: all of it, or up to what stops it.
fn write_page<'a>(
    rt: &HostRuntime,
    sheet: &'a [u8],
    words: &[String],
    manner: &Manner<'_>,
    ask: &'a Ask,
) -> Result<bool, Stop> {
    let mut page = Page::new(rt.stdout(), rt.alloc(), manner.tsv);
    let shown = show_sheet(&mut page, sheet, words, manner, ask)?;
    page.finish()?;
    Ok(shown)
}

// Does what the words ask for, and tells whether nothing was found amiss.
fn show_asked<'a>(
    rt: &HostRuntime,
    words: &'a [String],
    matches: &ArgMatches<'a>,
) -> Result<bool, Trouble<'a>> {
    let (manner, ask) = read_asked(rt.alloc(), matches)?;
    let bytes = read_sheet(rt, &manner)?;
    let sheet = bytes.as_slice();
    let Ok(()) = Bytes::check(sheet) else {
        return Err(Trouble::TooLong);
    };
    let shown = write_page(rt, sheet, words, &manner, &ask)?;
    Ok(shown)
}

// Shows the help that was asked for.
fn help<'a>(rt: &HostRuntime, text: &Error) -> Result<bool, Trouble<'a>> {
    match rt.print(text) {
        Ok(()) => Ok(true),
        Err(error) => Err(Trouble::Stopped(Stop::Output(error))),
    }
}

// `words` are shown, and `guarded` is what clap reads.
fn run<'a>(
    rt: &HostRuntime,
    words: &'a [String],
    guarded: &'a [String],
) -> Result<bool, Trouble<'a>> {
    match program(rt.alloc())?.try_get_matches_from(guarded) {
        Ok(matches) => show_asked(rt, words, &matches),
        Err(error) if !error.use_stderr() => help(rt, &error),
        Err(error) => Err(misused(rt.alloc(), words, error)),
    }
}

// Says what kept the program from what was asked: of the words in the lines of the library that
// reads them.
fn say(rt: &HostRuntime, trouble: &Trouble<'_>) {
    let _ = match trouble {
        Trouble::Misused(error) => rt.eprint(error),
        trouble => eprintln!(rt; "chart: {trouble}"),
    };
}

fn ended(rt: &HostRuntime, ran: Result<bool, Trouble<'_>>) -> ExitCode {
    match ran {
        Ok(true) => ExitCode::SUCCESS,
        Ok(false) => ExitCode::FAILURE,
        Err(trouble) => {
            say(rt, &trouble);
            ExitCode::FAILURE
        }
    }
}

// Reads these words, and does what they ask for.
fn run_on(rt: &HostRuntime, words: &[String]) -> ExitCode {
    match guarded(rt.alloc(), words) {
        Ok(guarded) => ended(rt, run(rt, words, guarded.as_slice())),
        Err(error) => ended(rt, Err(Trouble::from(error))),
    }
}

fn main(rt: HostRuntime) -> ExitCode {
    match read_words(&rt) {
        Ok(words) => run_on(&rt, words.as_slice()),
        Err(error) => ended(&rt, Err(Trouble::Words(error))),
    }
}
