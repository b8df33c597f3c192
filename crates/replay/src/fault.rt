// What keeps a line from its answer.
use anystr::refusal::Refusal;
use std::alloc::AllocError;

/// Why a case has no answer of its own.
#[derive(Clone, Copy)]
pub enum Fault {
    // the line is no case
    NoCase,
    // a method refuses what the case asks
    Refused(Refusal),
    NoMemory,
}

impl From<Refusal> for Fault {
    fn from(refusal: Refusal) -> Fault {
        Fault::Refused(refusal)
    }
}

impl From<AllocError> for Fault {
    fn from(_: AllocError) -> Fault {
        Fault::NoMemory
    }
}
