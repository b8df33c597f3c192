// Kinds of text in which a byte below 128 is an element by itself.
ghost use Rattle.std.specs.Prelude.{ℕ, List};
ghost use Rattle.std.specs.List.{concat};
ghost use Rattle.anystr.specs.Texts.{bytes_of};
ghost use Rattle.searchers.specs.Ascii.{AsciiApart};
ghost use Rattle.searchers.specs.Marks.{Bounded, Finds, FindsBack, OnBoundaries};
ghost use Rattle.searchers.specs.Seen.{IsSeenOf, IsSeenBackOf, Resumes, ResumesBack};

use super::mark::Mark;
use super::scan::{Pattern, first_mark, last_mark, next_close_mark, previous_mark};
use super::seen::{Seen, SeenBack};
use anystr::anystr::AnyStr;
use anystr::bytes::Bytes;
use text::Text;

/// A kind of text that can be searched for bytes below 128: such a byte is an element by itself.
pub trait AsciiStr: AnyStr {
    /// Does nothing; it shows that a byte below 128 stands between boundaries.
    fn ascii_apart(&self)
        ensures { AsciiApart (Self.elements self.now) };
}

impl<'a> AsciiStr for Bytes<'a> {
    fn ascii_apart(&self) {}
}

impl<'a> AsciiStr for Text<'a> {
    fn ascii_apart(&self) {}
}

/// A pattern whose marks are made of bytes below 128: they lie on boundaries of each text that
/// keeps such bytes apart.
pub trait AsciiPattern: Pattern {
    // its marks lie on boundaries
    ghost bounded: { (f : Self) (es : List (List ℕ))
        → AsciiApart es → Bounded es (Self.marks f (concat es)) };
}

/// The mark with the least start at or after the offset `from`; none exactly where there is none.
// A function for searchers to call, and no impl of `Searcher` for every such pattern: with one,
// two impls would fit `Substring`, and generic code over it gets no generated proof.
pub fn first_ascii_mark<S: AsciiStr, P: AsciiPattern>(
    pattern: &P,
    text: &S,
    from: usize,
) -> Option<Mark>
    ensures value { Finds (P.marks pattern.now (bytes_of S.AnyStr text.now)) from result }
    ensures cut { OnBoundaries (S.elements text.now) result }
{
    text.ascii_apart();
    first_mark(pattern, text.as_bytes(), from)
}

/// What `first_ascii_mark` gives, where `seen` is what was seen of the same text for the pattern, or
/// nothing: it goes on from there.
#[inline(always)]
pub fn next_ascii_mark<S: AsciiStr, P: AsciiPattern>(
    pattern: &P,
    text: &S,
    from: usize,
    seen: &mut Seen,
) -> Option<Mark>
    ensures { IsSeenOf (P.marks pattern.now (bytes_of S.AnyStr text.now)) seen.old
        → Resumes (S.elements text.now) (P.marks pattern.now (bytes_of S.AnyStr text.now)) from
        result seen.new }
{
    text.ascii_apart();
    next_close_mark(pattern, text.as_bytes(), from, seen)
}

/// The mark with the greatest end at or before the offset `before`; none exactly where there is
/// none.
// As the first, by the loop from the end.
pub fn last_ascii_mark<S: AsciiStr, P: AsciiPattern>(
    pattern: &P,
    text: &S,
    before: usize,
) -> Option<Mark>
    ensures value { FindsBack (P.marks pattern.now (bytes_of S.AnyStr text.now)) before result }
    ensures cut { OnBoundaries (S.elements text.now) result }
{
    text.ascii_apart();
    last_mark(pattern, text.as_bytes(), before)
}

/// What `last_ascii_mark` gives, where `seen` is what was seen of the same text from its end for the
/// pattern, or nothing: it goes on from there.
#[inline(always)]
pub fn previous_ascii_mark<S: AsciiStr, P: AsciiPattern>(
    pattern: &P,
    text: &S,
    before: usize,
    seen: &mut SeenBack,
) -> Option<Mark>
    ensures { IsSeenBackOf (P.marks pattern.now (bytes_of S.AnyStr text.now)) seen.old
        → ResumesBack (S.elements text.now) (P.marks pattern.now (bytes_of S.AnyStr text.now))
        before result seen.new }
{
    text.ascii_apart();
    previous_mark(pattern, text.as_bytes(), before, seen)
}
