// What ends the program before all rows are done.
use anystr::refusal::Refusal;
use std::alloc::AllocError;
use std::io;
use std::num::ParseIntError;
use thiserror::Error;

/// What ends the program early.
#[derive(Debug, Drop, Error)]
pub enum Trouble {
    #[error("the first word is to be a number of turns")]
    NoTurns(#[from] ParseIntError),
    #[error("each further word is to be a call, as 'replace , ;'")]
    NoCall,
    #[error("a call was refused ({number}, {value})", number = .0.code().0, value = .0.code().1)]
    Refused(#[from] Refusal),
    // the words, the standard input or output, or the clock
    #[error("words, sheet, clock or answers do not get through: {0}")]
    Failed(#[from] io::Error),
    #[error("too little memory for a call")]
    NoMemory(#[from] AllocError),
}
