// What ends a page early.
use super::refused::Refused;
use anystr::refusal::Refusal;
use sheets::rows::RowsError;
use std::alloc::AllocError;
use std::io;
use thiserror::Error;

/// What ends a page early.
#[derive(Debug, Drop, Error)]
pub enum Stop {
    #[error("{}", Refused(*.0))]
    Refused(Refusal),
    #[error("out of memory")]
    Memory,
    #[error("the standard output cannot be written: {0}")]
    Output(io::Error),
}

impl From<Refusal> for Stop {
    fn from(refusal: Refusal) -> Stop {
        Stop::Refused(refusal)
    }
}

impl From<AllocError> for Stop {
    fn from(_: AllocError) -> Stop {
        Stop::Memory
    }
}

impl From<RowsError> for Stop {
    fn from(error: RowsError) -> Stop {
        match error {
            RowsError::Refused(refusal) => Stop::Refused(refusal),
            RowsError::Memory => Stop::Memory,
        }
    }
}

// While a page is written, only the output fails with such an error.
impl From<io::Error> for Stop {
    fn from(error: io::Error) -> Stop {
        Stop::Output(error)
    }
}
