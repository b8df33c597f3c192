// A cutter after some of its pieces.
ghost use Rattle.cutters.specs.Calls.{opening_of};
ghost use Rattle.callers.specs.Rests.{RestsAfterTwo};

use anystr::anystr::AnyStr;
use cutters::bound::UNBOUNDED;
use cutters::cutter::Cutter;
use cutters::piece::Piece;
use searchers::searcher::Searcher;

/// What follows the first two fields of a row, as a stretch of it; the fields are those between the
/// searcher's marks. In a row of fewer fields nothing follows.
pub fn behind_two<S: AnyStr, F: Searcher<S> + Drop>(row: S, searcher: F) -> Piece
    ensures { RestsAfterTwo (opening_of S.AnyStr F.Searcher row searcher UNBOUNDED) result }
{
    let mut fields = Cutter::open(row, searcher, UNBOUNDED).pieces();
    let _ = fields.next();
    let _ = fields.next();
    fields.cutter().rest()
}
