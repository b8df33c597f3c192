// The cutter from the end: a text with its place, and a searcher that looks from the end.
ghost use Rattle.std.specs.Prelude.{◌≡◌, ◌+◌, ◌≤◌, IsTrue, ⊤};
ghost use Rattle.anystr.specs.Elements.{on_boundary};
ghost use Rattle.anystr.specs.Limits.{most_bytes};
ghost use Rattle.searchers.specs.Seen.{IsSeenBackOf};

use anystr::anystr::AnyStr;
use cutters::progress::Progress;
use searchers::searcher::ReverseSearcher;
use searchers::seen::SeenBack;
use std::alloc::AllocError;

pub mod calls;

/// A text that is cut at the marks of a searcher from the end, while fewer cuts are made than the
/// bound. Its place, down to which it has cut, is a boundary of the text, and the rest is the text
/// before it. A spent cutter has given its last piece, and its place is 0.
// A type beside `Cutter`, with its progress: it asks another sort of searcher by another method,
// and each piece lies before the place.
#[derive(Drop)]
pub struct BackCutter<S: AnyStr, F: ReverseSearcher<S>> {
    text: S,
    searcher: F,
    bound: i64,
    progress: Progress,
    // what the searcher has seen of the text
    seen: SeenBack,
    ghost placed: { IsTrue (on_boundary (S.elements text) progress.place) },
    ghost few: { progress.made + progress.place ≤ most_bytes },
    ghost looked: { IsSeenBackOf (F.Searcher.marks searcher (S.elements text)) seen },
}

// Not derived: Rattle derives no clone of a struct with a ghost field whose parameters may be no
// copies.
impl<S: AnyStr, F: ReverseSearcher<S> + Copy> Clone for BackCutter<S, F> {
    ghost is_clone = { λ c d. d ≡ c };

    ghost is_infallible = { λ _. ⊤ };

    fn clone(&self) -> Result<BackCutter<S, F>, AllocError> {
        Ok(*self)
    }
}

impl<S: AnyStr, F: ReverseSearcher<S> + Copy> Copy for BackCutter<S, F> {}
