// What the words ask for.
use super::stop::Stop;
use super::trouble::Trouble;
use super::words::{
    BOUND, BYTES, CALL, DELETE, FIELDS, FILE, FORMAT, FROM, IN_FILE, KEEP, MAXCOUNT, MAXSPLIT,
    ROWS, SEP, SEP_OPTION, SUB, TO,
};
use clap::ArgMatches;
use cutters::bound::UNBOUNDED;
use sheets::read::{EscapeError, read_escapes};
use std::alloc::Global;

/// Where the sheet stands, and how it is to be looked at and shown.
#[derive(Clone, Copy)]
pub struct Manner<'a> {
    /// the file; without it, the standard input
    pub file: Option<&'a str>,
    /// whether the file stands where a word of the program could
    pub bare: bool,
    /// whether byte by byte, even if the sheet is text
    pub bytes: bool,
    /// whether on each row by itself
    pub rows: bool,
    /// whether for programs
    pub tsv: bool,
}

/// A separator, if there is one, and the most cuts.
#[derive(Drop)]
pub struct Splitter {
    pub sep: Option<Vec<u8>>,
    pub maxsplit: i64,
}

/// A call on a cutter.
#[derive(Drop)]
pub enum CutterCall {
    Next,
    Skip(u64),
    Rest,
    Pour(Vec<u8>),
}

/// What is asked of the sheet.
#[derive(Drop)]
pub enum Ask {
    View {
        sep: Vec<u8>,
    },
    Check {
        sep: Vec<u8>,
        fields: Option<usize>,
    },
    Split(Splitter),
    Rsplit(Splitter),
    Lines {
        keep: bool,
    },
    Find(Vec<u8>),
    Rfind(Vec<u8>),
    Count(Vec<u8>),
    Replace {
        from: Vec<u8>,
        to: Vec<u8>,
        maxcount: Option<i64>,
    },
    Translate {
        from: Vec<u8>,
        to: Vec<u8>,
        delete: Vec<u8>,
    },
    Join {
        sep: Vec<u8>,
    },
    Cut {
        sep: Vec<u8>,
        bound: i64,
        calls: Vec<CutterCall>,
    },
}

const COMMA: &str = ",";

// The bytes that a word names.
fn bytes_of<'a>(heap: Global, id: &'static str, word: &str) -> Result<Vec<u8>, Trouble<'a>> {
    match read_escapes(heap, word.as_bytes()) {
        Ok(bytes) => Ok(bytes),
        Err(EscapeError::Memory) => Err(Trouble::Stopped(Stop::Memory)),
        Err(error) => Err(Trouble::Escape { id, error }),
    }
}

// The bytes that an argument names, or none where it is left out.
fn read_text<'a>(
    heap: Global,
    matches: &ArgMatches<'a>,
    id: &'static str,
) -> Result<Vec<u8>, Trouble<'a>> {
    bytes_of(heap, id, matches.get_str(id).unwrap_or(""))
}

// The separator of an option, or a comma.
fn read_sep<'a>(heap: Global, matches: &ArgMatches<'a>) -> Result<Vec<u8>, Trouble<'a>> {
    bytes_of(heap, SEP, matches.get_str(SEP_OPTION).unwrap_or(COMMA))
}

fn read_splitter<'a>(heap: Global, matches: &ArgMatches<'a>) -> Result<Splitter, Trouble<'a>> {
    let sep = match matches.get_str(SEP) {
        Some(word) => Some(bytes_of(heap, SEP, word)?),
        None => None,
    };
    Ok(Splitter {
        sep,
        maxsplit: matches.get_one::<i64>(MAXSPLIT).unwrap_or(UNBOUNDED),
    })
}

fn read_keep<'a>(matches: &ArgMatches<'a>) -> Result<bool, Trouble<'a>> {
    match matches.get_str(KEEP) {
        None => Ok(false),
        Some("keep") => Ok(true),
        Some(word) => Err(Trouble::NoKeep(word)),
    }
}

fn read_call<'a>(heap: Global, word: &'a str) -> Result<CutterCall, Trouble<'a>> {
    match word.split_once(':') {
        None if word == "next" => Ok(CutterCall::Next),
        None if word == "rest" => Ok(CutterCall::Rest),
        Some(("skip", n)) => match n.parse::<u64>() {
            Ok(n) => Ok(CutterCall::Skip(n)),
            Err(_) => Err(Trouble::NoCall(word)),
        },
        Some(("pour", to)) => Ok(CutterCall::Pour(bytes_of(heap, TO, to)?)),
        _ => Err(Trouble::NoCall(word)),
    }
}

fn read_calls<'a>(heap: Global, matches: &ArgMatches<'a>) -> Result<Vec<CutterCall>, Trouble<'a>> {
    let mut calls = Vec::new(heap);
    for word in matches.get_strs(CALL).unwrap_or(&[]) {
        let call = read_call(heap, word)?;
        let Ok(()) = calls.push(call) else {
            return Err(Trouble::Stopped(Stop::Memory));
        };
    }
    Ok(calls)
}

fn read_replace<'a>(heap: Global, matches: &ArgMatches<'a>) -> Result<Ask, Trouble<'a>> {
    Ok(Ask::Replace {
        from: read_text(heap, matches, FROM)?,
        to: read_text(heap, matches, TO)?,
        maxcount: matches.get_one::<i64>(MAXCOUNT),
    })
}

fn read_translate<'a>(heap: Global, matches: &ArgMatches<'a>) -> Result<Ask, Trouble<'a>> {
    Ok(Ask::Translate {
        from: read_text(heap, matches, FROM)?,
        to: read_text(heap, matches, TO)?,
        delete: read_text(heap, matches, DELETE)?,
    })
}

fn read_cut<'a>(heap: Global, matches: &ArgMatches<'a>) -> Result<Ask, Trouble<'a>> {
    Ok(Ask::Cut {
        sep: read_text(heap, matches, SEP)?,
        bound: matches.get_one::<i64>(BOUND).unwrap_or(UNBOUNDED),
        calls: read_calls(heap, matches)?,
    })
}

// What a word of the program asks for, whose words were found to be in order.
fn read_ask<'a>(heap: Global, name: &str, matches: &ArgMatches<'a>) -> Result<Ask, Trouble<'a>> {
    match name {
        "check" => Ok(Ask::Check {
            sep: read_sep(heap, matches)?,
            fields: matches.get_one::<usize>(FIELDS),
        }),
        "split" => Ok(Ask::Split(read_splitter(heap, matches)?)),
        "rsplit" => Ok(Ask::Rsplit(read_splitter(heap, matches)?)),
        "lines" => Ok(Ask::Lines {
            keep: read_keep(matches)?,
        }),
        "find" => Ok(Ask::Find(read_text(heap, matches, SUB)?)),
        "rfind" => Ok(Ask::Rfind(read_text(heap, matches, SUB)?)),
        "count" => Ok(Ask::Count(read_text(heap, matches, SUB)?)),
        "replace" => read_replace(heap, matches),
        "translate" => read_translate(heap, matches),
        "cut" => read_cut(heap, matches),
        // the one that is left
        _ => Ok(Ask::Join {
            sep: read_text(heap, matches, SEP)?,
        }),
    }
}

fn read_manner<'a>(matches: &ArgMatches<'a>, bare: bool) -> Manner<'a> {
    let file = matches.get_str(FILE);
    Manner {
        file: file.or(matches.get_str(IN_FILE)),
        bare,
        bytes: matches.get_flag(BYTES),
        rows: matches.get_flag(ROWS),
        tsv: matches.get_str(FORMAT).is_some(),
    }
}

/// What the words ask for, and in which manner.
pub fn read_asked<'a>(
    heap: Global,
    matches: &ArgMatches<'a>,
) -> Result<(Manner<'a>, Ask), Trouble<'a>> {
    match matches.subcommand() {
        Some((name, inner)) => Ok((read_manner(inner, false), read_ask(heap, name, inner)?)),
        None => {
            let sep = read_sep(heap, matches)?;
            Ok((read_manner(matches, true), Ask::View { sep }))
        }
    }
}
