// The search for a text in another of its kind.

ghost use Rattle.std.specs.Prelude.{◌≡◌, ◌↔◌, ◌<◌, IsTrue, [], ◌∷◌, length};
ghost use Rattle.std.specs.List.{concat};
ghost use Rattle.anystr.specs.Elements.{Occurs};
ghost use Rattle.anystr.specs.Refusals.{PassesIf};
ghost use Rattle.anystr.specs.Texts.{bytes_of};
ghost use Rattle.searchers.specs.Marks.{CutTimes, Finds, FindsBack};
ghost use Rattle.searchers.specs.Seen.{IsSeenOf, IsSeenBackOf};
ghost use Rattle.searchers.specs.substring.Occurrences.{occurrence, occurrence-lawful};
ghost use Rattle.searchers.specs.substring.Substrings.{needle_of, needle_bytes};

use crate::lanes::{LANES, places_among, times};
use crate::mark::Mark;
use crate::scan::{NEAR, Pattern, count_from, next_mark, previous_mark};
use crate::searcher::{ReverseSearcher, Searcher};
use crate::seen::{Seen, SeenBack};
use anystr::anystr::AnyStr;
use anystr::refusal::Refusal;
use memchr::memmem;

/// A searcher whose marks are all occurrences of a nonempty text, overlapping ones too.
#[derive(Clone, Copy)]
pub struct Substring<S: AnyStr> {
    needle: S,
}

impl<S: AnyStr> Substring<S> {
    /// Whether there is something to look for; refused with 1 where the needle is empty.
    // A check beside the making, as texts have, so that the making never fails.
    pub fn check(needle: &S) -> Result<(), Refusal>
        ensures { PassesIf (0 < length (bytes_of S.AnyStr needle.now)) (1, 0) result }
    {
        if needle.is_empty() {
            Err(Refusal::EmptyNeedle)
        } else {
            Ok(())
        }
    }

    /// The searcher for the needle. For an empty one, which `check` refuses, it has no marks.
    pub fn new(needle: S) -> Substring<S>
        ensures { needle_of result ≡ needle }
    {
        Substring { needle }
    }
}

// Where fewer bytes are left, a search of its own for the rest costs more than it spares.
const FAR: usize = 128;

// Whether the needle, which is not empty, stands at `start`.
#[inline(always)]
fn stands(needle: &[u8], bytes: &[u8], start: usize) -> bool
    requires { 0 < length needle.now }
    ensures { IsTrue result ↔ Occurs bytes.now needle.now start }
{
    if let [byte] = needle {
        return bytes.get(start) == Some(byte);
    }
    if bytes.len() < needle.len() || bytes.len() - needle.len() < start {
        return false;
    }
    &bytes[start..start + needle.len()] == needle
}

// The bytes of a needle, as a pattern.
#[derive(Clone, Copy)]
struct Needle<'a> {
    bytes: &'a [u8],
}

impl<'a> Pattern for Needle<'a> {
    ghost marks = { λ f. occurrence (needle_bytes f) };

    ghost lawful = { λ f. occurrence-lawful (needle_bytes f) };

    // by the first byte of the needle, and by its last
    #[inline(always)]
    fn begins(&self, bytes: &[u8], at: usize) -> u64 {
        let [first, .., last] = self.bytes else {
            return places_among(bytes, at, self.bytes);
        };
        let end = at.saturating_add(self.bytes.len() - 1);
        places_among(bytes, at, &[*first]) & places_among(bytes, end, &[*last])
    }

    #[inline(always)]
    fn ends(&self, bytes: &[u8], at: usize) -> u64 {
        let [first, .., last] = self.bytes else {
            return places_among(bytes, at, self.bytes);
        };
        let Some(start) = at.checked_sub(self.bytes.len() - 1) else {
            return u64::MAX;
        };
        places_among(bytes, start, &[*first]) & places_among(bytes, at, &[*last])
    }

    fn skip(&self, bytes: &[u8], at: usize) -> usize {
        let Some(rest) = bytes.get(at..) else {
            return at;
        };
        if rest.len() < FAR {
            return at;
        }
        match memmem::find(rest, self.bytes) {
            Some(start) => at + start,
            None => bytes.len(),
        }
    }

    fn skip_back(&self, bytes: &[u8], before: usize) -> usize {
        let Some(front) = bytes.get(..before) else {
            return before;
        };
        if front.len() < FAR {
            return before;
        }
        match memmem::rfind(front, self.bytes) {
            Some(start) => start + self.bytes.len(),
            None => 0,
        }
    }

    #[inline(always)]
    fn mark_from(&self, bytes: &[u8], start: usize) -> Option<usize> {
        if self.bytes.is_empty() {
            return None;
        }
        if stands(self.bytes, bytes, start) {
            Some(start + self.bytes.len())
        } else {
            None
        }
    }

    #[inline(always)]
    fn mark_to(&self, bytes: &[u8], end: usize) -> Option<usize> {
        let start = end.checked_sub(self.bytes.len())?;
        if self.bytes.is_empty() {
            return None;
        }
        if stands(self.bytes, bytes, start) {
            Some(start)
        } else {
            None
        }
    }
}

// The first occurrence at or after the offset `from`. A long needle might stand nearly everywhere,
// so it goes to a search that is linear all the same.
#[inline(always)]
fn next_occurrence(needle: &[u8], bytes: &[u8], from: usize, seen: &mut Seen) -> Option<Mark>
    ensures value { IsSeenOf (occurrence needle.now bytes.now) seen.old
        → Finds (occurrence needle.now bytes.now) from result }
    ensures seen { IsSeenOf (occurrence needle.now bytes.now) seen.old
        → IsSeenOf (occurrence needle.now bytes.now) seen.new }
{
    if needle.len() <= LANES {
        return next_mark(&Needle { bytes: needle }, bytes, from, seen);
    }
    let start = from + memmem::find(bytes.get(from..)?, needle)?;
    Some(Mark {
        start,
        end: start + needle.len(),
    })
}

// The last occurrence that ends at or before the offset `before`.
#[inline(always)]
fn previous_occurrence(
    needle: &[u8],
    bytes: &[u8],
    before: usize,
    seen: &mut SeenBack,
) -> Option<Mark>
    ensures value { IsSeenBackOf (occurrence needle.now bytes.now) seen.old
        → FindsBack (occurrence needle.now bytes.now) before result }
    ensures seen { IsSeenBackOf (occurrence needle.now bytes.now) seen.old
        → IsSeenBackOf (occurrence needle.now bytes.now) seen.new }
{
    if needle.len() <= LANES {
        return previous_mark(&Needle { bytes: needle }, bytes, before, seen);
    }
    let start = memmem::rfind(&bytes[..before.min(bytes.len())], needle)?;
    Some(Mark {
        start,
        end: start + needle.len(),
    })
}

// How often one byte stands from the offset `from` on: each is cut.
fn count_byte(byte: u8, bytes: &[u8], from: usize) -> usize
    ensures { CutTimes (occurrence (byte ∷ []) bytes.now) from result }
{
    let Some(rest) = bytes.get(from..) else {
        return 0;
    };
    times(rest, byte)
}

impl<S: AnyStr> Searcher<S> for Substring<S> {
    ghost marks = { λ f es. occurrence (bytes_of S.AnyStr (needle_of f)) (concat es) };

    ghost lawful = { λ f text.
        occurrence-lawful (bytes_of S.AnyStr (needle_of f)) (bytes_of S.AnyStr text) };

    #[tactic(auto, using(crate::proofs::substring::OnText::found_on))]
    fn find(&self, text: &S, from: usize) -> Option<Mark> {
        let needle = self.needle.as_bytes();
        next_occurrence(needle, text.as_bytes(), from, &mut Seen::nothing())
    }

    #[inline(always)]
    fn resume(&self, text: &S, from: usize, seen: &mut Seen) -> Option<Mark> {
        next_occurrence(self.needle.as_bytes(), text.as_bytes(), from, seen)
    }

    fn count_at_once(&self, text: &S, from: usize) -> Option<usize> {
        let bytes = text.as_bytes();
        match self.needle.as_bytes() {
            [byte] => Some(count_byte(*byte, bytes, from)),
            needle if needle.len() <= LANES && NEAR <= bytes.len() => Some(count_from(
                &Needle { bytes: needle },
                bytes,
                from,
            )),
            _ => None,
        }
    }

    fn mark_len(&self, _text: &S) -> Option<usize> {
        Some(self.needle.bytes_len())
    }
}

impl<S: AnyStr> ReverseSearcher<S> for Substring<S> {
    #[inline(always)]
    #[tactic(auto, using(crate::proofs::substring::OnText::found_back_on))]
    fn rfind(&self, text: &S, before: usize) -> Option<Mark> {
        previous_occurrence(
            self.needle.as_bytes(),
            text.as_bytes(),
            before,
            &mut SeenBack::nothing(),
        )
    }

    #[inline(always)]
    fn resume_back(&self, text: &S, before: usize, seen: &mut SeenBack) -> Option<Mark> {
        previous_occurrence(self.needle.as_bytes(), text.as_bytes(), before, seen)
    }
}
