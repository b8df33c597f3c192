// A set of bytes, and the search for its bytes.
ghost use Rattle.std.specs.Prelude.{◌≡◌, ℕ, ◌≤◌, true, ◌||◌, ◌==◌, take, MatchOption};
ghost use Rattle.std.specs.List.{concat};
ghost use Rattle.searchers.specs.Lanes.{Places};
ghost use Rattle.searchers.specs.Marks.{Finds, FindsBack};
ghost use Rattle.searchers.specs.Seen.{IsSeenOf, IsSeenBackOf};
ghost use Rattle.searchers.specs.bytesets.Sets.{among, member, IsSetOf, AllBelow, LeastFrom};
ghost use Rattle.searchers.specs.bytesets.Sets.{single_bytes, single_bytes-lawful};

use crate::lanes::{LANES, places_among};
use crate::mark::Mark;
use crate::scan::{
    Pattern, first_asked, first_mark, last_asked, last_mark, next_close_mark, previous_mark,
};
use crate::searcher::{ReverseSearcher, Searcher};
use crate::seen::{Seen, SeenBack};
use anystr::anystr::AnyStr;
use anystr::bytes::Bytes;

/// The number of different bytes.
pub const BYTE_VALUES: usize = 256;

// The most bytes of a set that are compared side by side.
const FEW: usize = 8;

/// A set of bytes.
// Held as a table of all bytes. Of a set of few they are listed too; where there are more, `len` is
// above that.
#[derive(Clone, Copy)]
pub struct ByteSet {
    has: [bool; BYTE_VALUES],
    listed: [u8; FEW],
    len: usize,
    ghost few: { len ≤ 8 → (b : ℕ) → member has b ≡ true → among (take len listed) b ≡ true },
}

impl ByteSet {
    ghost use Rattle.searchers.specs.bytesets.ByteSets.{has_byte};

    /// The set of these bytes.
    pub fn new(bytes: &[u8]) -> ByteSet
        ensures { IsSetOf bytes.now (has_byte result) }
    {
        let mut set = ByteSet {
            has: [false; BYTE_VALUES],
            listed: [0; FEW],
            len: 0,
        };
        for b in bytes {
            set.insert(*b);
        }
        set
    }

    /// Whether the byte is in the set.
    pub fn contains(&self, byte: u8) -> bool
        ensures { result ≡ has_byte self.now byte }
    {
        self.has[byte as usize]
    }

    /// Adds the byte.
    pub fn insert(&mut self, byte: u8)
        ensures { (b : ℕ) → has_byte self.new b ≡ (has_byte self.old b || byte == b) }
    {
        if self.contains(byte) {
            return;
        }
        if self.len < FEW {
            self.listed[self.len] = byte;
            self.len += 1;
        } else {
            self.len = FEW + 1;
        }
        self.has[byte as usize] = true;
    }

    // Where bytes of the set stand among the 64 from `at` on, by a look-up of each.
    fn looked_up(&self, bytes: &[u8], at: usize) -> u64
        ensures { Places (has_byte self.now) bytes.now 64 at result }
    {
        let mut bits = 0u64;
        let Some(rest) = bytes.get(at..) else {
            return bits;
        };
        for k in 0..rest.len().min(LANES) {
            if self.contains(rest[k]) {
                bits |= 1 << k;
            }
        }
        bits
    }

    // Where bytes of the set may stand among the 64 from `at` on.
    #[inline(always)]
    fn places(&self, bytes: &[u8], at: usize) -> u64
        ensures { Places (has_byte self.now) bytes.now 64 at result }
    {
        if self.len > FEW {
            return self.looked_up(bytes, at);
        }
        places_among(bytes, at, &self.listed[..self.len])
    }

    // The first byte of the set from `from` on, where `seen` is what was seen of the same bytes for the
    // set. Of many bytes each offset is asked, since a look asks as often; of few it goes on from there.
    #[inline(always)]
    pub(super) fn next_in(&self, bytes: &[u8], from: usize, seen: &mut Seen) -> Option<Mark>
        ensures value { IsSeenOf (single_bytes (has_byte self.now) bytes.now) seen.old
            → Finds (single_bytes (has_byte self.now) bytes.now) from result }
        ensures seen { IsSeenOf (single_bytes (has_byte self.now) bytes.now) seen.old
            → IsSeenOf (single_bytes (has_byte self.now) bytes.now) seen.new }
    {
        if self.len > FEW {
            return first_asked(self, bytes, from, bytes.len());
        }
        next_close_mark(self, bytes, from, seen)
    }

    // The last byte of the set before `before`, by what was seen from the end.
    #[inline(always)]
    pub(super) fn previous_in(
        &self,
        bytes: &[u8],
        before: usize,
        seen: &mut SeenBack,
    ) -> Option<Mark>
        ensures value { IsSeenBackOf (single_bytes (has_byte self.now) bytes.now) seen.old
            → FindsBack (single_bytes (has_byte self.now) bytes.now) before result }
        ensures seen { IsSeenBackOf (single_bytes (has_byte self.now) bytes.now) seen.old
            → IsSeenBackOf (single_bytes (has_byte self.now) bytes.now) seen.new }
    {
        if self.len > FEW {
            return last_asked(self, bytes, 0, before.min(bytes.len()));
        }
        previous_mark(self, bytes, before, seen)
    }

    // The least byte of the set at or above `low`.
    pub(super) fn least_from(&self, low: u8) -> Option<u8>
        ensures { MatchOption result
            (AllBelow (has_byte self.now) low) (LeastFrom (has_byte self.now) low) }
    {
        for byte in low as usize..BYTE_VALUES {
            if self.has[byte] {
                return Some(byte as u8);
            }
        }
        None
    }
}

impl Pattern for ByteSet {
    ghost use Rattle.searchers.specs.bytesets.ByteSets.{has_byte};

    ghost marks = { λ f. single_bytes (has_byte f) };

    ghost lawful = { λ f. single_bytes-lawful (has_byte f) };

    #[inline(always)]
    fn begins(&self, bytes: &[u8], at: usize) -> u64 {
        self.places(bytes, at)
    }

    // each mark is one byte
    #[inline(always)]
    fn ends(&self, bytes: &[u8], at: usize) -> u64 {
        self.places(bytes, at)
    }

    #[inline(always)]
    fn mark_from(&self, bytes: &[u8], start: usize) -> Option<usize> {
        let byte = bytes.get(start)?;
        self.contains(*byte).then_some(start + 1)
    }

    fn mark_to(&self, bytes: &[u8], end: usize) -> Option<usize> {
        let start = end.checked_sub(1)?;
        self.mark_from(bytes, start)?;
        Some(start)
    }
}

impl<'a> Searcher<Bytes<'a>> for ByteSet {
    ghost use Rattle.searchers.specs.bytesets.ByteSets.{has_byte};

    ghost marks = { λ f es. single_bytes (has_byte f) (concat es) };

    ghost lawful = { λ f text. single_bytes-lawful (has_byte f)
        (concat (⟦<Bytes<'a> as AnyStr>⟧.elements text)) };

    fn find(&self, text: &Bytes<'a>, from: usize) -> Option<Mark> {
        first_mark(self, text.as_bytes(), from)
    }

    #[inline(always)]
    fn resume(&self, text: &Bytes<'a>, from: usize, seen: &mut Seen) -> Option<Mark> {
        self.next_in(text.as_bytes(), from, seen)
    }

    fn mark_len(&self, _text: &Bytes<'a>) -> Option<usize> {
        Some(1)
    }
}

impl<'a> ReverseSearcher<Bytes<'a>> for ByteSet {
    ghost use Rattle.searchers.specs.bytesets.ByteSets.{has_byte};

    fn rfind(&self, text: &Bytes<'a>, before: usize) -> Option<Mark> {
        last_mark(self, text.as_bytes(), before)
    }

    #[inline(always)]
    fn resume_back(&self, text: &Bytes<'a>, before: usize, seen: &mut SeenBack) -> Option<Mark> {
        self.previous_in(text.as_bytes(), before, seen)
    }
}
