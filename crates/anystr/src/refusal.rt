// The answers to what cannot be done.
ghost use Rattle.std.specs.Prelude.{◌≡◌};
ghost use Rattle.anystr.specs.Refusals.{code};

/// Why a call was refused. `code` gives each its number.
#[derive(Clone, Copy, PartialEq, Eq, Debug)]
pub enum Refusal {
    /// an empty separator or needle
    EmptyNeedle,
    /// a number that is no byte
    NotByte,
    /// maketrans with lists of unequal lengths
    UnequalLengths,
    /// a table that has not 256 bytes
    BadTable,
    /// a replace result above the greatest signed 64-bit number
    ResultTooLong,
    /// a text of too many bytes, or too many places to join
    TooLong,
    /// a tray or a list with too little room for the whole result, with the bytes or entries needed
    TooSmall { needed: u64 },
    /// a pour on a spent cutter
    Spent,
    /// a skip beyond the pieces that are left, with their number
    TooFew { left: u64 },
    /// ill-formed UTF-8, with the length of its longest well-formed beginning
    IllFormed { formed: u64 },
    /// a byte of 128 or more in a set for Text, with the least
    NotAscii { least: u8 },
    /// a stretch that does not run from a boundary to one at or after it; join gives its index
    BadPlace { index: u64 },
}

impl Refusal {
    /// The number of the refusal, from 1 to 12, and the number that it carries, or 0.
    // Numbers, since that is how a sheet that is sent back tells its refusal.
    pub fn code(&self) -> (u8, u64)
        ensures { result ≡ code self.now }
    {
        match *self {
            Refusal::EmptyNeedle => (1, 0),
            Refusal::NotByte => (2, 0),
            Refusal::UnequalLengths => (3, 0),
            Refusal::BadTable => (4, 0),
            Refusal::ResultTooLong => (5, 0),
            Refusal::TooLong => (6, 0),
            Refusal::TooSmall { needed } => (7, needed),
            Refusal::Spent => (8, 0),
            Refusal::TooFew { left } => (9, left),
            Refusal::IllFormed { formed } => (10, formed),
            Refusal::NotAscii { least } => (11, least as u64),
            Refusal::BadPlace { index } => (12, index),
        }
    }
}
