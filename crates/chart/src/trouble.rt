// What keeps the program from showing what was asked for.
use super::stop::Stop;
use anystr::anystr::MAX_BYTES;
use sheets::read::EscapeError;
use std::alloc::AllocError;
use std::io;
use thiserror::Error;

/// What keeps the program from showing what was asked for.
#[derive(Debug, Drop, Error)]
pub enum Trouble<'a> {
    #[error("{0}")]
    Misused(clap::Error),
    #[error("'{word}' is no word of chart; did you mean '{near}'? See 'chart help'")]
    NoWord {
        word: &'a str,
        near: &'static str,
    },
    #[error("the words cannot be read: {0}")]
    Words(io::Error),
    #[error("{id}: {error}; \\t, \\n, \\r, \\\\ and \\xHH are escapes")]
    Escape {
        id: &'static str,
        error: EscapeError,
    },
    #[error("'{0}' is no call on a cutter: next, skip:N, rest and pour:TO are")]
    NoCall(&'a str),
    #[error("'{0}' is not 'keep', the one word that lines takes")]
    NoKeep(&'a str),
    #[error("'{file}' cannot be read: {error}")]
    File {
        file: &'a str,
        error: io::Error,
    },
    #[error("'{file}' cannot be read: {error}; did you mean the word '{near}'?")]
    NoFile {
        file: &'a str,
        error: io::Error,
        near: &'static str,
    },
    #[error("the standard input cannot be read: {0}")]
    Input(io::Error),
    #[error("refused (6): the sheet has more than {MAX_BYTES} bytes")]
    TooLong,
    #[error("{0}")]
    Stopped(#[from] Stop),
}

impl<'a> From<AllocError> for Trouble<'a> {
    fn from(_: AllocError) -> Trouble<'a> {
        Trouble::Stopped(Stop::Memory)
    }
}
