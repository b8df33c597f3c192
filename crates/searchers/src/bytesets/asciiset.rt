// A set of bytes below 128, and the search for them in texts that keep such bytes apart.
ghost use Rattle.std.specs.Prelude.{[], IfOk, MatchOption};
ghost use Rattle.std.specs.List.{concat};
ghost use Rattle.anystr.specs.Texts.{bytes_of};
ghost use Rattle.searchers.specs.bytesets.ByteSets.{has_byte};
ghost use Rattle.searchers.specs.bytesets.OnText.{single_bytes-bounded};
ghost use Rattle.searchers.specs.bytesets.Sets.{IsSetOf, AllBelow, AllAscii, AsciiChecked, LeastFrom};
ghost use Rattle.searchers.specs.bytesets.Sets.{single_bytes, single_bytes-lawful};

use super::byteset::ByteSet;
use crate::ascii::{AsciiPattern, AsciiStr, first_ascii_mark, last_ascii_mark};
use crate::mark::Mark;
use crate::scan::Pattern;
use crate::searcher::{ReverseSearcher, Searcher};
use crate::seen::{Seen, SeenBack};
use anystr::refusal::Refusal;

const FIRST_NON_ASCII: u8 = 128;

/// A set of bytes that are all below 128.
#[derive(Clone, Copy)]
pub struct AsciiSet {
    set: ByteSet,
    ghost low: { AllBelow (has_byte set) 128 },
}

// The least byte of a set that is not below 128. The bytes it was made of are asked first: mostly
// they are fewer than those from 128 on.
fn least_non_ascii(bytes: &[u8], set: &ByteSet) -> Option<u8>
    requires { IsSetOf bytes.now (has_byte set.now) }
    ensures { MatchOption result
        (AllBelow (has_byte set.now) 128) (LeastFrom (has_byte set.now) 128) }
{
    if bytes.is_ascii() {
        return None;
    }
    set.least_from(FIRST_NON_ASCII)
}

impl<'a> TryFrom<&'a [u8]> for AsciiSet {
    ghost use Rattle.searchers.specs.bytesets.AsciiSets.{has_ascii};

    type Error = Refusal;

    ghost try_from_gives = { λ bytes r.
        AsciiChecked bytes.now r × IfOk r (λ set. IsSetOf bytes.now (has_ascii set)) };

    /// The set of these bytes; refused with 11 and the least byte that is not below 128, where
    /// there is one.
    fn try_from(bytes: &'a [u8]) -> Result<AsciiSet, Refusal> {
        let set = ByteSet::new(bytes);
        match least_non_ascii(bytes, &set) {
            Some(least) => Err(Refusal::NotAscii { least }),
            None => Ok(AsciiSet { set }),
        }
    }
}

impl AsciiSet {
    ghost use Rattle.searchers.specs.bytesets.AsciiSets.{has_ascii};

    /// Whether all the bytes are below 128; refused with 11 and the least byte that is not, where
    /// there is one.
    pub fn check(bytes: &[u8]) -> Result<(), Refusal>
        ensures { AsciiChecked bytes.now result }
    {
        AsciiSet::try_from(bytes).map(|_| ())
    }

    /// The set of these bytes; the empty set where `check` refuses.
    pub fn new(bytes: &[u8]) -> AsciiSet
        ensures given { AllAscii bytes.now → IsSetOf bytes.now (has_ascii result) }
        ensures refused { (AllAscii bytes.now → ⊥) → IsSetOf [] (has_ascii result) }
    {
        AsciiSet::try_from(bytes).unwrap_or(AsciiSet {
            set: ByteSet::new(&[]),
        })
    }
}

impl Pattern for AsciiSet {
    ghost use Rattle.searchers.specs.bytesets.AsciiSets.{has_ascii};

    ghost marks = { λ f. single_bytes (has_ascii f) };

    ghost lawful = { λ f. single_bytes-lawful (has_ascii f) };

    #[inline(always)]
    fn begins(&self, bytes: &[u8], at: usize) -> u64 {
        self.set.begins(bytes, at)
    }

    #[inline(always)]
    fn ends(&self, bytes: &[u8], at: usize) -> u64 {
        self.set.ends(bytes, at)
    }

    #[inline(always)]
    fn mark_from(&self, bytes: &[u8], start: usize) -> Option<usize> {
        self.set.mark_from(bytes, start)
    }

    fn mark_to(&self, bytes: &[u8], end: usize) -> Option<usize> {
        self.set.mark_to(bytes, end)
    }
}

impl AsciiPattern for AsciiSet {
    ghost use Rattle.searchers.specs.bytesets.AsciiSets.{has_ascii};

    ghost bounded = { λ f. single_bytes-bounded (has_ascii f) f.low };
}

// `first_ascii_mark` says why no impl serves this and `LineEnds`.
impl<S: AsciiStr> Searcher<S> for AsciiSet {
    ghost use Rattle.searchers.specs.bytesets.AsciiSets.{has_ascii};

    ghost marks = { λ f es. single_bytes (has_ascii f) (concat es) };

    ghost lawful = { λ f text. single_bytes-lawful (has_ascii f) (bytes_of S.AnyStr text) };

    fn find(&self, text: &S, from: usize) -> Option<Mark> {
        first_ascii_mark(self, text, from)
    }

    #[inline(always)]
    fn resume(&self, text: &S, from: usize, seen: &mut Seen) -> Option<Mark> {
        text.ascii_apart();
        self.set.next_in(text.as_bytes(), from, seen)
    }

    fn mark_len(&self, _text: &S) -> Option<usize> {
        Some(1)
    }
}

impl<S: AsciiStr> ReverseSearcher<S> for AsciiSet {
    fn rfind(&self, text: &S, before: usize) -> Option<Mark> {
        last_ascii_mark(self, text, before)
    }

    #[inline(always)]
    fn resume_back(&self, text: &S, before: usize, seen: &mut SeenBack) -> Option<Mark> {
        text.ascii_apart();
        self.set.previous_in(text.as_bytes(), before, seen)
    }
}
