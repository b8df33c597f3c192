// Cutters that are lent: calls over their pieces, and a source of them.
ghost use Rattle.std.specs.Prelude.{◌≡◌, ◌≤◌, suc, List, [], length, take, drop};
ghost use Rattle.std.specs.Iterator.{YieldsFirstBy, item_count};
ghost use Rattle.anystr.specs.Limits.{most_bytes};
ghost use Rattle.searchers.specs.Marks.{Span};
ghost use Rattle.cutters.specs.Calls.{span, left_pieces};
ghost use Rattle.cutters.specs.pieces.Sources.{Filled};
ghost use Rattle.cutters.specs.pieces.Yields.{counts_down};

use super::source::Pieces;
use crate::cutter::Cutter;
use crate::piece::Piece;
use anystr::anystr::AnyStr;
use anystr::place::Place;
use searchers::searcher::Searcher;

/// What gives pieces of a text by a call of its own: a cutter, also over a searcher that may not be dropped.
/// Whoever adds one gives the next piece, and shows what is left and that this is few.
// Beside `Pieces`: the library asks of every iterator that it can be dropped.
pub trait NextPiece {
    // the pieces that are left, in the order in which they come
    ghost left: { Self → List Span };

    /// The next piece, the first of those that are left; none exactly where none is left.
    fn next_piece(&mut self) -> Option<Piece>
        ensures { YieldsFirstBy span left self.old result self.new };

    // they are at most one more than a text can have bytes
    ghost few: { (s : Self) → length (left s) ≤ suc most_bytes };
}

impl<S: AnyStr, F: Searcher<S>> NextPiece for Cutter<S, F> {
    ghost left = { left_pieces };

    #[inline(always)]
    fn next_piece(&mut self) -> Option<Piece> {
        self.next()
    }

    ghost few = { λ c. (counts_down F.Searcher.lawful S.AnyStr.few c).few };
}

/// The number of pieces that a cutter has left; it has none after it.
pub fn count<C: NextPiece>(cutter: &mut C) -> usize
    ensures value { result ≡ length (C.left cutter.old) }
    ensures none { C.left cutter.new ≡ [] }
{
    let mut n = 0;
    while let Some(_) = cutter.next_piece() {
        n += 1;
    }
    n
}

/// Passes over the next `n` pieces of a cutter, or over all that it has left.
pub fn pass<C: NextPiece>(cutter: &mut C, n: usize)
    ensures { C.left cutter.new ≡ drop n (C.left cutter.old) }
{
    for _ in 0..n {
        let Some(_) = cutter.next_piece() else {
            break;
        };
    }
}

/// Writes the next pieces of a cutter into the places, as `fill` of a source does.
pub fn fill<C: NextPiece>(cutter: &mut C, places: &mut [Place])
    ensures written { Filled (take (length places.old) (C.left cutter.old)) places.old places.new }
    ensures left { C.left cutter.new ≡ drop (length places.old) (C.left cutter.old) }
{
    super::fill::fill(&mut Lent::new(cutter), places);
}

/// The pieces that a lent cutter has left, as a source; the cutter goes on behind those that come.
#[derive(Drop)]
pub struct Lent<'a, C> {
    cutter: &'a mut C,
}

impl<'a, C: NextPiece> Lent<'a, C> {
    ghost use Rattle.cutters.specs.pieces.Loans.{lent_cutter, loan_of};

    /// Of a cutter.
    pub fn new(cutter: &'a mut C) -> Lent<'a, C>
        ensures same { lent_cutter result ≡ cutter.old }
        ensures lent { loan_of result ≡ cutter.entry.ghost_name }
    {
        Lent { cutter }
    }
}

impl<'a, C: NextPiece> Iterator for Lent<'a, C> {
    ghost use Rattle.cutters.specs.pieces.Loans.{lent_left, LentStep};

    type Item = Piece;

    // the next piece of the cutter
    ghost next_gives = { LentStep C.NextPiece.left };

    ghost remaining = { item_count (lent_left C.NextPiece.left) };

    #[inline(always)]
    fn next(&mut self) -> Option<Piece> {
        self.cutter.next_piece()
    }
}

impl<'a, C: NextPiece> Pieces for Lent<'a, C> {
    ghost use Rattle.cutters.specs.pieces.Loans.{lent_left, lent_counts};

    ghost left = { lent_left C.NextPiece.left };

    ghost asked = { λ _. tt };

    ghost gives = { λ _ _ _ h. h.yields };

    ghost counts = { lent_counts C.NextPiece.left C.NextPiece.few };
}
