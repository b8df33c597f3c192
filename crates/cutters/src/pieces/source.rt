// What gives pieces, and those of a cutter as such.
ghost use Rattle.std.specs.Prelude.{◌≡◌, List, length, Option};
ghost use Rattle.std.specs.Iterator.{YieldsFirstBy};
ghost use Rattle.std.specs.Iterator.Adapters.{skip_source};
ghost use Rattle.searchers.specs.Marks.{Span};
ghost use Rattle.cutters.specs.declared.piece.Piece.{Piece};
ghost use Rattle.cutters.specs.Calls.{span, left_pieces};
ghost use Rattle.cutters.specs.pieces.Lefts.{cutter_of};
ghost use Rattle.cutters.specs.pieces.Skipped.{left_after, skip_counts, skip_gives};
ghost use Rattle.cutters.specs.pieces.Sources.{CountsDown};
ghost use Rattle.cutters.specs.pieces.Yields.{next_yields, counts_down};

use crate::cutter::iter::PiecesLeft;
use crate::piece::Piece;
use anystr::anystr::AnyStr;
use searchers::searcher::Searcher;
use std::iter::Skip;

/// A source of pieces of a text: an iterator of which it is known what is left. Whoever adds one shows what is left, that
/// it may always be asked for the next piece, that this is the first of those left, and how many there are.
pub trait Pieces: Iterator<Item = Piece> {
    // the pieces that are left, in the order in which they come
    ghost left: { Self → List Span };

    /// The number of pieces that are left.
    // Beside the iterator's `count`, which no source can write anew.
    fn count_left(self) -> usize
    where
        Self: Sized,
        ensures { result ≡ length (left self) }
    {
        self.count()
    }

    // the next piece may always be asked for
    ghost asked: { (s : Self) → Self.can_next s };

    // it is the first of those that are left; none comes exactly where none is left
    ghost gives: { (s : Self) (r : Option Piece) (t : Self)
        → Self.next_gives s r t → YieldsFirstBy span left s r t };

    // as many come as are left, at most one more than a text can have bytes
    ghost counts: { (s : Self) → CountsDown (Self.remaining s) (left s) };
}

impl<S: AnyStr, F: Searcher<S> + Drop> Pieces for PiecesLeft<S, F> {
    ghost left = { λ s. left_pieces (cutter_of s) };

    fn count_left(self) -> usize {
        self.cutter().count()
    }

    ghost asked = { λ _. tt };

    ghost gives = { λ s r t. next_yields F.Searcher.lawful (cutter_of s) (cutter_of t) r };

    ghost counts = { λ s. counts_down F.Searcher.lawful S.AnyStr.few (cutter_of s) };
}

// Without its first pieces, a source is one too.
impl<P: Pieces> Pieces for Skip<P> {
    ghost left = { left_after P.Pieces.left };

    ghost asked = { λ s. P.Pieces.asked (skip_source s) };

    ghost gives = { skip_gives P.Pieces.left P.Iterator.next_gives P.Pieces.gives };

    ghost counts = { λ s.
        skip_counts P.Pieces.left P.Iterator.remaining s (P.Pieces.counts (skip_source s)) };
}
