// What searchers look for.

/// A stretch of a text that a searcher looks for, from its start to its end in bytes; never empty.
// A type of its own beside `Piece`, with which it must not be mixed up.
#[derive(Clone, Copy, PartialEq, Eq, Debug)]
pub struct Mark {
    pub start: usize,
    pub end: usize,
}
