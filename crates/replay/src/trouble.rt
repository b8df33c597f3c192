// What ends the program before all cases are answered.
use std::alloc::AllocError;
use std::io;
use thiserror::Error;

/// What keeps the program from its answers.
#[derive(Debug, Drop, Error)]
pub enum Trouble {
    // the standard input or output fails
    #[error("cases or answers do not get through: {0}")]
    Stream(#[from] io::Error),
    #[error("too little memory for a case or its answer")]
    NoMemory(#[from] AllocError),
}
