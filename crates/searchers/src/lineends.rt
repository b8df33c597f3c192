// The search for line ends.

ghost use Rattle.std.specs.Prelude.{◌≡◌, ◌<◌, ◌==◌, IsTrue, length, slice_index};
ghost use Rattle.std.specs.List.{concat};
ghost use Rattle.anystr.specs.Texts.{bytes_of};
ghost use Rattle.searchers.specs.lineends.Lines.{line_end, line_end-lawful};
ghost use Rattle.searchers.specs.lineends.OnText.{line-ends_on};

use crate::ascii::{
    AsciiPattern, AsciiStr, first_ascii_mark, last_ascii_mark, next_ascii_mark, previous_ascii_mark,
};
use crate::lanes::places_among;
use crate::mark::Mark;
use crate::scan::Pattern;
use crate::searcher::{ReverseSearcher, Searcher};
use crate::seen::{Seen, SeenBack};

/// A searcher whose marks are `\r\n`, `\r` that no `\n` follows, and `\n` that no `\r` precedes.
#[derive(Clone, Copy)]
pub struct LineEnds;

// Whether the byte stands at `offset`. It is not 0, which the contract reads past the end.
fn is_at(bytes: &[u8], offset: usize, byte: u8) -> bool
    requires { 0 < byte }
    ensures value { result ≡ (slice_index bytes.now offset == byte) }
    ensures within { IsTrue result → offset < length bytes.now }
{
    bytes.get(offset) == Some(&byte)
}

impl Pattern for LineEnds {
    ghost marks = { λ _. line_end };

    ghost lawful = { λ _. line_end-lawful };

    #[inline(always)]
    fn begins(&self, bytes: &[u8], at: usize) -> u64 {
        places_among(bytes, at, b"\r\n")
    }

    #[inline(always)]
    fn ends(&self, bytes: &[u8], at: usize) -> u64 {
        places_among(bytes, at, b"\r\n")
    }

    #[inline(always)]
    fn mark_from(&self, bytes: &[u8], start: usize) -> Option<usize> {
        match bytes.get(start)? {
            b'\r' if is_at(bytes, start + 1, b'\n') => Some(start + 2),
            b'\r' => Some(start + 1),
            b'\n' if start == 0 || !is_at(bytes, start - 1, b'\r') => Some(start + 1),
            _ => None,
        }
    }

    fn mark_to(&self, bytes: &[u8], end: usize) -> Option<usize> {
        let last = end.checked_sub(1)?;
        match bytes.get(last)? {
            b'\n' if last > 0 && is_at(bytes, last - 1, b'\r') => Some(last - 1),
            b'\n' => Some(last),
            b'\r' if !is_at(bytes, end, b'\n') => Some(last),
            _ => None,
        }
    }
}

impl AsciiPattern for LineEnds {
    ghost bounded = { λ _. line-ends_on };
}

impl<S: AsciiStr> Searcher<S> for LineEnds {
    ghost marks = { λ _ es. line_end (concat es) };

    ghost lawful = { λ _ text. line_end-lawful (bytes_of S.AnyStr text) };

    fn find(&self, text: &S, from: usize) -> Option<Mark> {
        first_ascii_mark(self, text, from)
    }

    #[inline(always)]
    fn resume(&self, text: &S, from: usize, seen: &mut Seen) -> Option<Mark> {
        next_ascii_mark(self, text, from, seen)
    }
}

impl<S: AsciiStr> ReverseSearcher<S> for LineEnds {
    fn rfind(&self, text: &S, before: usize) -> Option<Mark> {
        last_ascii_mark(self, text, before)
    }

    #[inline(always)]
    fn resume_back(&self, text: &S, before: usize, seen: &mut SeenBack) -> Option<Mark> {
        previous_ascii_mark(self, text, before, seen)
    }
}
