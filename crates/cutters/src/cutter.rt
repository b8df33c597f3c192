// The cutter: a text with its place, and a searcher.
ghost use Rattle.std.specs.Prelude.{◌≡◌, ◌≤◌, false, IsTrue, ⊤};
ghost use Rattle.anystr.specs.Elements.{on_boundary};
ghost use Rattle.anystr.specs.Limits.{most_bytes};
ghost use Rattle.searchers.specs.Seen.{IsSeenOf};

use crate::progress::Progress;
use anystr::anystr::AnyStr;
use searchers::searcher::Searcher;
use searchers::seen::Seen;
use std::alloc::AllocError;

mod calls;
pub mod iter;
mod tally;

/// A text that is cut at the marks of a searcher, in their order, while fewer cuts are made than the bound.
/// Its place, up to which it has cut, is a boundary of the text, and the rest is the text from there on. A spent cutter
/// has given its last piece.
#[derive(Drop)]
pub struct Cutter<S: AnyStr, F: Searcher<S>> {
    text: S,
    searcher: F,
    bound: i64,
    progress: Progress,
    // what the searcher has seen of the text: true wherever the place is, also where it is put back
    seen: Seen,
    ghost placed: { IsTrue (on_boundary (S.elements text) progress.place) },
    ghost few: { progress.made ≤ most_bytes },
    ghost behind: { progress.spent ≡ false → progress.made ≤ progress.place },
    ghost looked: { IsSeenOf (F.marks searcher (S.elements text)) seen },
}

// Not derived: Rattle derives no clone of a struct with a ghost field whose parameters may be no copies.
impl<S: AnyStr, F: Searcher<S> + Copy> Clone for Cutter<S, F> {
    ghost is_clone = { λ c d. d ≡ c };

    ghost is_infallible = { λ _. ⊤ };

    fn clone(&self) -> Result<Cutter<S, F>, AllocError> {
        Ok(*self)
    }
}

impl<S: AnyStr, F: Searcher<S> + Copy> Copy for Cutter<S, F> {}
