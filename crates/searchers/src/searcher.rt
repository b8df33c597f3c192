// The interface of the searchers.
ghost use Rattle.std.specs.Prelude.{ℕ, List, length, IfSome};
ghost use Rattle.anystr.specs.Texts.{bytes_of};
ghost use Rattle.searchers.specs.Marks.{Marks, Lawful, CutTimes, Finds, FindsBack, OnBoundaries};
ghost use Rattle.searchers.specs.Marks.{AllOfLength};
ghost use Rattle.searchers.specs.Seen.{IsSeenOf, IsSeenBackOf, Resumes, ResumesBack};

use super::mark::Mark;
use super::seen::{Seen, SeenBack};
use anystr::anystr::AnyStr;

/// What looks for marks in texts of a kind: an implementer says what its marks are, and finds the
/// first of them.
pub trait Searcher<S: AnyStr> {
    // the meaning of a searcher: its marks in a text of these elements
    ghost marks: { Self → List (List ℕ) → Marks };

    /// The mark with the least start at or after the offset `from`; none exactly where there is
    /// none.
    fn find(&self, text: &S, from: usize) -> Option<Mark>
        ensures value { Finds (marks self.now (S.elements text.now)) from result }
        ensures cut { OnBoundaries (S.elements text.now) result };

    /// What `find` gives, where `seen` is what the searcher has seen of the same text, or nothing:
    /// it goes on from there.
    fn resume(&self, text: &S, from: usize, seen: &mut Seen) -> Option<Mark>
        ensures { IsSeenOf (marks self.now (S.elements text.now)) seen.old
            → Resumes (S.elements text.now) (marks self.now (S.elements text.now)) from result
            seen.new }
    {
        let _ = seen;
        self.find(text, from)
    }

    /// The number of marks that are cut from the offset `from` on, where the searcher can tell it
    /// without a search for each.
    fn count_at_once(&self, text: &S, from: usize) -> Option<usize>
        ensures { IfSome result (CutTimes (marks self.now (S.elements text.now)) from) }
    {
        let _ = text;
        let _ = from;
        None
    }

    /// The number of marks that are cut from the offset `from` on, without overlap.
    fn count_cuts(&self, text: &S, from: usize) -> usize
        ensures { CutTimes (marks self.now (S.elements text.now)) from result }
    {
        if let Some(count) = self.count_at_once(text, from) {
            return count;
        }
        // not `successors(..).count()`: the library knows no end of its items
        let mut count = 0;
        let mut place = from;
        let mut seen = Seen::nothing();
        while let Some(mark) = self.resume(text, place, &mut seen) {
            count += 1;
            place = mark.end;
        }
        count
    }

    /// The length of every mark of the text in bytes, where all of them have the same.
    fn mark_len(&self, text: &S) -> Option<usize>
        ensures { IfSome result (λ len. AllOfLength len (marks self.now (S.elements text.now))) }
    {
        let _ = text;
        None
    }

    // in each text a mark has a start below its end; no two share a start, and no two share an end
    ghost lawful: { (f : Self) (text : S)
        → Lawful (marks f (S.elements text)) (length (bytes_of S.AnyStr text)) };
}

/// A searcher that looks from the end too: an implementer finds the last of its marks.
pub trait ReverseSearcher<S: AnyStr>: Searcher<S> {
    /// The mark with the greatest end at or before the offset `before`; none exactly where there is
    /// none.
    fn rfind(&self, text: &S, before: usize) -> Option<Mark>
        ensures value { FindsBack (Self.marks self.now (S.elements text.now)) before result }
        ensures cut { OnBoundaries (S.elements text.now) result };

    /// What `rfind` gives, where `seen` is what the searcher has seen of the same text from its
    /// end, or nothing: it goes on from there.
    fn resume_back(&self, text: &S, before: usize, seen: &mut SeenBack) -> Option<Mark>
        ensures { IsSeenBackOf (Self.marks self.now (S.elements text.now)) seen.old
            → ResumesBack (S.elements text.now) (Self.marks self.now (S.elements text.now)) before
            result seen.new }
    {
        let _ = seen;
        self.rfind(text, before)
    }
}
