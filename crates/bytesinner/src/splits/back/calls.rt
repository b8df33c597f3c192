// The calls on a cutter from the end.
ghost use Rattle.std.specs.Prelude.{◌≡◌, length, IfSome};
ghost use Rattle.std.specs.Iterator.{item_count};
ghost use Rattle.searchers.specs.Marks.{OnBoundaries};
ghost use Rattle.searchers.specs.Seen.{IsSeenBackOf};
ghost use Rattle.cuts.specs.Cuts.{at_opening};
ghost use Rattle.bytesinner.specs.splits.Back.{opening, state, left_pieces, IsOn, BackStep};
ghost use Rattle.bytesinner.specs.splits.Back.{CutsNext};
ghost use Rattle.bytesinner.specs.splits.Yields.{next-yields, counts_down};

use super::BackCutter;
use anystr::anystr::AnyStr;
use cutters::bound::{fewer, unbounded};
use cutters::piece::Piece;
use cutters::pieces::lent::NextPiece;
use cutters::pieces::source::Pieces;
use cutters::progress::Progress;
use searchers::mark::Mark;
use searchers::searcher::{ReverseSearcher, Searcher};
use searchers::seen::SeenBack;

impl<S: AnyStr, F: ReverseSearcher<S>> BackCutter<S, F> {
    /// A cutter from the end on the whole text, with no cut made. `bound` is the most cuts that it
    /// makes; a negative one is no bound.
    pub fn open(text: S, searcher: F, bound: i64) -> BackCutter<S, F>
        ensures on { IsOn text searcher bound result }
        ensures state { state result ≡ at_opening }
    {
        let place = text.bytes_len();
        BackCutter {
            text,
            searcher,
            bound,
            progress: Progress::from_place(place),
            seen: SeenBack::nothing(),
        }
    }

    // The mark that is cut next, if one is. It goes on from what was seen of the text.
    #[inline(always)]
    fn next_mark(&self, seen: &mut SeenBack) -> Option<Mark>
        requires { IsSeenBackOf (opening self.now).marks seen.old }
        ensures value { CutsNext self.now result }
        ensures cut { OnBoundaries (S.elements self.now.text) result }
        ensures seen { IsSeenBackOf (opening self.now).marks seen.new }
    {
        if !fewer(self.progress.made, self.bound) {
            return None;
        }
        let text = self.text;
        self.searcher.resume_back(&text, self.progress.place, seen)
    }

    /// The next piece from the end, which begins at the end of the last mark up to the place; the
    /// whole rest where there is none or the bound is used up; none where the cutter is spent.
    // Beside the iterator's `next`, which asks for a searcher that can be dropped.
    #[inline(always)]
    pub fn next_piece(&mut self) -> Option<Piece>
        ensures { BackStep self.old result self.new }
    {
        if self.progress.spent {
            return None;
        }
        let end = self.progress.place;
        let mut seen = self.seen;
        let mark = self.next_mark(&mut seen);
        self.seen = seen;
        let Some(mark) = mark else {
            self.progress.place = 0;
            self.progress.spent = true;
            return Some(Piece { start: 0, end });
        };
        self.progress.place = mark.start;
        self.progress.made += 1;
        Some(Piece {
            start: mark.end,
            end,
        })
    }

    // The number of pieces that are left, where a count from the front tells it: before the first
    // cut, without a bound, where all marks have one length.
    fn count_from_front(&self) -> Option<usize>
        ensures { IfSome result (λ n. n ≡ length (left_pieces self.now)) }
    {
        let text = self.text;
        let is_whole = !self.progress.spent && self.progress.place == text.bytes_len();
        if !is_whole || !unbounded(self.bound) {
            return None;
        }
        self.searcher.mark_len(&text)?;
        Some(self.searcher.count_cuts(&text, 0) + 1)
    }
}

impl<S: AnyStr, F: ReverseSearcher<S>> NextPiece for BackCutter<S, F> {
    ghost left = { left_pieces };

    #[inline(always)]
    fn next_piece(&mut self) -> Option<Piece> {
        BackCutter::next_piece(self)
    }

    ghost few = { λ c. (counts_down c (F.Searcher.lawful c.searcher c.text) (S.few c.text)).few };
}

impl<S: AnyStr, F: ReverseSearcher<S> + Drop> Iterator for BackCutter<S, F> {
    type Item = Piece;

    // what comes next from the end, and the state after it
    ghost next_gives = { BackStep };

    ghost remaining = { item_count left_pieces };

    #[inline(always)]
    fn next(&mut self) -> Option<Piece> {
        self.next_piece()
    }
}

impl<S: AnyStr, F: ReverseSearcher<S> + Drop> Pieces for BackCutter<S, F> {
    ghost left = { left_pieces };

    fn count_left(self) -> usize {
        if let Some(count) = self.count_from_front() {
            return count;
        }
        self.count()
    }

    ghost asked = { λ _. tt };

    ghost gives = { λ c. next-yields c (F.Searcher.lawful c.searcher c.text) };

    ghost counts = { λ c. counts_down c (F.Searcher.lawful c.searcher c.text) (S.few c.text) };
}
