// A row that is listed from its end, page by page.
ghost use Rattle.std.specs.Prelude.{◌≡◌, length, take, drop};
ghost use Rattle.cutters.specs.pieces.Sources.{Filled};
ghost use Rattle.bytesinner.specs.splits.Back.{left_pieces};

use anystr::anystr::AnyStr;
use anystr::place::Place;
use bytesinner::splits::back::BackCutter;
use cutters::pieces::lent::{count, fill};
use searchers::searcher::ReverseSearcher;

/// Writes the next fields of a row into the page, from the end of the row on, and gives the number
/// of those that no longer fit there. The row is cut by its owner's cutter, whose searcher may be
/// one that cannot be dropped.
pub fn last_fields<S: AnyStr, F: ReverseSearcher<S>>(
    fields: &mut BackCutter<S, F>,
    page: &mut [Place],
) -> usize
    ensures written { Filled (take (length page.old) (left_pieces fields.old)) page.old page.new }
    ensures others { result ≡ length (drop (length page.old) (left_pieces fields.old)) }
{
    fill(fields, page);
    count(fields)
}
