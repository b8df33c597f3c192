// How many marks can be cut.
ghost use Rattle.searchers.specs.Marks.{CutTimes};

use super::searcher::Searcher;
use anystr::anystr::AnyStr;

/// The number of marks that are cut from the front, without overlap.
pub fn count_marks<S: AnyStr, F: Searcher<S>>(searcher: &F, text: &S) -> usize
    ensures { CutTimes (F.marks searcher.now (S.elements text.now)) 0 result }
{
    searcher.count_cuts(text, 0)
}
