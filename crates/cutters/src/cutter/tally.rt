// The marks that a cutter has still to cut, counted.
ghost use Rattle.std.specs.Prelude.{◌≡◌, false, length};
ghost use Rattle.cutters.specs.Calls.{state, left_pieces, poured_by};
ghost use Rattle.cutters.specs.Tallies.{marks_ahead, IsTallyOf};

use super::Cutter;
use crate::bound::{fewer, unbounded};
use crate::piece::Piece;
use anystr::anystr::AnyStr;
use searchers::searcher::Searcher;

// Marks that are cut: how many, and the bytes that they take together.
#[derive(Clone, Copy)]
struct Tally {
    marks: usize,
    bytes: usize,
}

impl<S: AnyStr, F: Searcher<S>> Cutter<S, F> {
    // Goes over the marks that are cut from the place on; the cutter stays.
    fn walk(&self) -> Tally
        requires { (state self.now).spent ≡ false }
        ensures { IsTallyOf (marks_ahead self.now) result }
    {
        let text = self.text;
        let mut place = self.progress.place;
        let mut made = self.progress.made;
        let mut seen = self.seen;
        let mut tally = Tally { marks: 0, bytes: 0 };
        while fewer(made, self.bound) {
            let Some(mark) = self.searcher.resume(&text, place, &mut seen) else {
                return tally;
            };
            tally.marks += 1;
            tally.bytes += mark.end - mark.start;
            place = mark.end;
            made += 1;
        }
        tally
    }

    // The number of marks that are cut from the place on. Without a bound the searcher counts them.
    fn mark_count(&self) -> usize
        requires { (state self.now).spent ≡ false }
        ensures { result ≡ length (marks_ahead self.now) }
    {
        if unbounded(self.bound) {
            let text = self.text;
            self.searcher.count_cuts(&text, self.progress.place)
        } else {
            self.walk().marks
        }
    }

    // The marks that are cut from the place on. Where all are as long their number is enough.
    fn tally(&self) -> Tally
        requires { (state self.now).spent ≡ false }
        ensures { IsTallyOf (marks_ahead self.now) result }
    {
        let text = self.text;
        match self.searcher.mark_len(&text) {
            None => self.walk(),
            Some(len) => {
                let marks = self.mark_count();
                Tally {
                    marks,
                    bytes: marks * len,
                }
            }
        }
    }

    // The number of pieces that are left.
    pub(crate) fn count(&self) -> usize
        ensures { result ≡ length (left_pieces self.now) }
    {
        if self.progress.spent {
            0
        } else {
            self.mark_count() + 1
        }
    }

    // The bytes that the rest takes with `to` in place of each mark still to be cut.
    pub(super) fn measure(&self, to: &S) -> u64
        requires { (state self.now).spent ≡ false }
        ensures { result ≡ length (poured_by self.now to.now) }
    {
        let Piece { start, end } = self.rest();
        let Tally { marks, bytes } = self.tally();
        (end - start + marks * to.bytes_len() - bytes) as u64
    }
}
