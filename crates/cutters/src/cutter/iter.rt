// The pieces that a cutter has left, as an iterator.
ghost use Rattle.std.specs.Prelude.{◌≡◌};
ghost use Rattle.std.specs.Iterator.{item_count};
ghost use Rattle.cutters.specs.Calls.{left_pieces, NextStep};

use super::Cutter;
use crate::piece::Piece;
use anystr::anystr::AnyStr;
use searchers::searcher::Searcher;

/// The pieces that a cutter has left, one after another.
/// A type of its own: a cutter that is an iterator would have two calls named `skip`, and a call on a cutter by value
/// would be the iterator's.
#[derive(Drop)]
#[derive_where(Clone, Copy; F: Copy)]
pub struct PiecesLeft<S: AnyStr, F: Searcher<S>> {
    cutter: Cutter<S, F>,
}

impl<S: AnyStr, F: Searcher<S>> Cutter<S, F> {
    ghost use Rattle.cutters.specs.pieces.Lefts.{cutter_of};

    /// The pieces that are left, one after another.
    pub fn pieces(self) -> PiecesLeft<S, F>
        ensures { cutter_of result ≡ self }
    {
        PiecesLeft { cutter: self }
    }
}

impl<S: AnyStr, F: Searcher<S>> PiecesLeft<S, F> {
    ghost use Rattle.cutters.specs.pieces.Lefts.{cutter_of};

    /// The cutter, given back, with the pieces that are still left.
    pub fn cutter(self) -> Cutter<S, F>
        ensures { result ≡ cutter_of self }
    {
        let PiecesLeft { cutter } = self;
        cutter
    }
}

impl<S: AnyStr, F: Searcher<S> + Drop> Iterator for PiecesLeft<S, F> {
    ghost use Rattle.cutters.specs.pieces.Lefts.{cutter_of};

    type Item = Piece;

    // a next of the cutter
    ghost next_gives = { λ s r t. NextStep (cutter_of s) r (cutter_of t) };

    ghost remaining = { item_count (λ s. left_pieces (cutter_of s)) };

    #[inline(always)]
    fn next(&mut self) -> Option<Piece> {
        self.cutter.next()
    }
}
