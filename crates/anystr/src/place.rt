// Places: the entries of lists that callers lend.

/// A stretch of a text, in bytes from its beginning, as an entry of a list that a caller lends.
// A type of its own beside `Piece`, with which it must not be mixed up: its entry is the caller's.
#[derive(Clone, Copy, PartialEq, Eq, Debug, Default)]
pub struct Place {
    /// the offset of its first byte
    pub start: usize,
    /// the offset past its last byte
    pub end: usize,
}
