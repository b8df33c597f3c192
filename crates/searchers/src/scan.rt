// The search for marks: a loop from each end, for every pattern.
ghost use Rattle.std.specs.Prelude.{◌≡◌, ℕ, ◌+◌, ◌<◌, ◌≤◌, List, length};
ghost use Rattle.searchers.specs.Marks.{Marks, Lawful, CutTimes, Finds, FindsBack, FindsOne};
ghost use Rattle.searchers.specs.Seen.{IsSeenOf, MayBegin, MayEnd, Begins, NoneBegins, NoneEnds};
ghost use Rattle.searchers.specs.Seen.{FindsWithin, FindsBackWithin, Ends, IsSeenBackOf};

use super::lanes::{LANES, highest, lowest, without};
use super::mark::Mark;
use super::seen::{Seen, SeenBack};

// The bits of a pattern that knows nothing: a mark may stand at each offset.
const EVERYWHERE: u64 = u64::MAX;

// Where fewer bytes are left, a look costs more than a question at each of them.
pub(crate) const NEAR: usize = LANES / 2;

// So many offsets are asked for before the first look of a search.
const CLOSE: usize = 16;

/// What is looked for in bytes: where marks may begin and end, and what stands there.
pub trait Pattern {
    // the marks in these bytes
    ghost marks: { Self → List ℕ → Marks };

    // in all bytes a mark has a start below its end; no two share a start, and no two share an end
    ghost lawful: { (f : Self) (bs : List ℕ) → Lawful (marks f bs) (length bs) };

    /// Where marks may begin among the 64 offsets from `at` on: bit k is set where one begins at
    /// `at + k`, and maybe elsewhere. A pattern that does not say it is asked at each offset.
    fn begins(&self, bytes: &[u8], at: usize) -> u64
        ensures { MayBegin (marks self.now bytes.now) at (at + 64) result }
    {
        let _ = bytes;
        let _ = at;
        EVERYWHERE
    }

    /// Where marks may end among the 64 offsets after `at`: bit k is set where one ends at
    /// `at + k + 1`, and maybe elsewhere.
    fn ends(&self, bytes: &[u8], at: usize) -> u64
        ensures { MayEnd (marks self.now bytes.now) at result }
    {
        let _ = bytes;
        let _ = at;
        EVERYWHERE
    }

    /// An offset from `at` on, such that no mark begins from `at` up to it.
    fn skip(&self, bytes: &[u8], at: usize) -> usize
        ensures low { at ≤ result }
        ensures passed { NoneBegins (marks self.now bytes.now) at result }
    {
        let _ = bytes;
        at
    }

    /// An offset up to `before`, such that no mark ends after it up to `before`.
    fn skip_back(&self, bytes: &[u8], before: usize) -> usize
        ensures high { result ≤ before }
        ensures passed { NoneEnds (marks self.now bytes.now) result before }
    {
        let _ = bytes;
        before
    }

    /// The end of the mark that begins at `start`; none exactly where none begins.
    fn mark_from(&self, bytes: &[u8], start: usize) -> Option<usize>
        ensures { FindsOne (marks self.now bytes.now start) result };

    /// The start of the mark that ends at `end`; none exactly where none ends.
    fn mark_to(&self, bytes: &[u8], end: usize) -> Option<usize>
        ensures { FindsOne (λ start. marks self.now bytes.now start end) result };
}

// The first mark that begins where one may, by the bits of the offsets from `at` on.
#[inline(always)]
fn first_of<P: Pattern>(pattern: &P, bytes: &[u8], at: usize, begins: u64) -> Option<Mark>
    requires { at ≤ length bytes.now + 64 }
    ensures { (end : ℕ) → Begins (P.marks pattern.now bytes.now) at end begins
        → FindsWithin (P.marks pattern.now bytes.now) at end result }
{
    let mut left = begins;
    while left != 0 {
        let bit = lowest(left);
        let start = at + bit;
        if let Some(end) = pattern.mark_from(bytes, start) {
            return Some(Mark { start, end });
        }
        left = without(left, bit);
    }
    None
}

// The first mark that begins from `from` up to `to`, by a question at each offset.
#[inline(always)]
pub(crate) fn first_asked<P: Pattern>(
    pattern: &P,
    bytes: &[u8],
    from: usize,
    to: usize,
) -> Option<Mark>
    ensures { FindsWithin (P.marks pattern.now bytes.now) from to result }
{
    for start in from..to {
        if let Some(end) = pattern.mark_from(bytes, start) {
            return Some(Mark { start, end });
        }
    }
    None
}

// The same as a function of its own, so that the other way of a search is short.
#[inline(never)]
fn first_near<P: Pattern>(pattern: &P, bytes: &[u8], from: usize, to: usize) -> Option<Mark>
    ensures { FindsWithin (P.marks pattern.now bytes.now) from to result }
{
    first_asked(pattern, bytes, from, to)
}

// What is seen from an offset on.
#[inline(always)]
fn look<P: Pattern>(pattern: &P, bytes: &[u8], at: usize) -> Seen
    ensures at { result.at ≡ at }
    ensures seen { IsSeenOf (P.marks pattern.now bytes.now) result }
{
    Seen {
        at,
        bits: pattern.begins(bytes, at),
    }
}

// What is seen next. Where nothing may begin for a while, the pattern skips.
#[inline(always)]
fn look_on<P: Pattern>(pattern: &P, bytes: &[u8], seen: Seen) -> Seen
    requires { seen.at < length bytes.now }
    ensures low { seen.at + 64 ≤ result.at }
    ensures passed { NoneBegins (P.marks pattern.now bytes.now) (seen.at + 64) result.at }
    ensures seen { IsSeenOf (P.marks pattern.now bytes.now) result }
{
    let at = seen.at + LANES;
    let next = look(pattern, bytes, at);
    if seen.bits != 0 || next.bits != 0 || bytes.len() - seen.at <= LANES + LANES {
        return next;
    }
    look(pattern, bytes, pattern.skip(bytes, at + LANES))
}

// The bits of the offsets from `from` on, out of what was seen; where it is not there, by a new look.
#[inline(always)]
fn bits_from<P: Pattern>(pattern: &P, bytes: &[u8], from: usize, seen: &mut Seen) -> u64
    ensures low { seen.new.at ≤ from }
    ensures near { from < seen.new.at + 64 }
    ensures seen { IsSeenOf (P.marks pattern.now bytes.now) seen.old
        → IsSeenOf (P.marks pattern.now bytes.now) seen.new
        × Begins (P.marks pattern.now bytes.now) from (seen.new.at + 64) result }
{
    if let Some(bits) = seen.rest(from) {
        return bits;
    }
    *seen = look(pattern, bytes, from);
    seen.bits
}

/// The mark with the least start at or after the offset `from`; none exactly where there is none.
/// So it is where `seen` is what was seen of the same bytes for the pattern; it goes on from there.
#[inline(always)]
pub fn next_mark<P: Pattern>(
    pattern: &P,
    bytes: &[u8],
    from: usize,
    seen: &mut Seen,
) -> Option<Mark>
    ensures value { IsSeenOf (P.marks pattern.now bytes.now) seen.old
        → Finds (P.marks pattern.now bytes.now) from result }
    ensures seen { IsSeenOf (P.marks pattern.now bytes.now) seen.old
        → IsSeenOf (P.marks pattern.now bytes.now) seen.new }
{
    if bytes.len().saturating_sub(from) < NEAR {
        return first_near(pattern, bytes, from, bytes.len());
    }
    let mut at = from;
    let mut left = bits_from(pattern, bytes, from, seen);
    while seen.at < bytes.len() {
        if let Some(mark) = first_of(pattern, bytes, at, left) {
            return Some(mark);
        }
        if bytes.len() - seen.at <= LANES {
            return None;
        }
        *seen = look_on(pattern, bytes, *seen);
        at = seen.at;
        left = seen.bits;
    }
    None
}

/// What `next_mark` gives. A mark at `from` itself is found without a look: so it is sooner where marks
/// often stand one behind another.
#[inline(always)]
pub fn next_close_mark<P: Pattern>(
    pattern: &P,
    bytes: &[u8],
    from: usize,
    seen: &mut Seen,
) -> Option<Mark>
    ensures value { IsSeenOf (P.marks pattern.now bytes.now) seen.old
        → Finds (P.marks pattern.now bytes.now) from result }
    ensures seen { IsSeenOf (P.marks pattern.now bytes.now) seen.old
        → IsSeenOf (P.marks pattern.now bytes.now) seen.new }
{
    if let Some(end) = pattern.mark_from(bytes, from) {
        return Some(Mark { start: from, end });
    }
    next_mark(pattern, bytes, from, seen)
}

/// The mark with the least start at or after the offset `from`; none exactly where there is none.
#[inline(always)]
pub fn first_mark<P: Pattern>(pattern: &P, bytes: &[u8], from: usize) -> Option<Mark>
    ensures { Finds (P.marks pattern.now bytes.now) from result }
{
    let mut start = from;
    while start < bytes.len() {
        if let Some(end) = pattern.mark_from(bytes, start) {
            return Some(Mark { start, end });
        }
        start += 1;
        if start - from == CLOSE {
            return next_mark(pattern, bytes, start, &mut Seen::nothing());
        }
    }
    None
}

// How many marks stand one behind another from `from` on, and where the last of them ends.
#[inline(always)]
fn row_from<P: Pattern>(pattern: &P, bytes: &[u8], from: usize) -> (usize, usize)
    ensures few { from + result.0 ≤ result.1 }
    ensures cut { (n : ℕ) → CutTimes (P.marks pattern.now bytes.now) result.1 n
        → CutTimes (P.marks pattern.now bytes.now) from (result.0 + n) }
{
    let mut count = 0;
    let mut place = from;
    while let Some(end) = pattern.mark_from(bytes, place) {
        count += 1;
        place = end;
    }
    (count, place)
}

/// The number of marks that are cut from the offset `from` on, without overlap.
// Not by `next_mark`: nothing has to be kept from one mark to the next.
pub(crate) fn count_from<P: Pattern>(pattern: &P, bytes: &[u8], from: usize) -> usize
    ensures { CutTimes (P.marks pattern.now bytes.now) from result }
{
    let mut count = 0;
    let mut place = from;
    let mut at = from;
    while at < bytes.len() {
        let mut left = pattern.begins(bytes, at);
        while left != 0 {
            let bit = lowest(left);
            left = without(left, bit);
            let start = at + bit;
            if start < place {
                continue;
            }
            if let Some(end) = pattern.mark_from(bytes, start) {
                let (behind, last) = row_from(pattern, bytes, end);
                count += 1 + behind;
                place = last;
            }
        }
        at = place.max(at + LANES);
    }
    count
}

// The last mark that ends where one may, by the bits of the offsets after `at`.
#[inline(always)]
fn last_of<P: Pattern>(pattern: &P, bytes: &[u8], at: usize, ends: u64) -> Option<Mark>
    requires { at ≤ length bytes.now }
    ensures { (to : ℕ) → Ends (P.marks pattern.now bytes.now) at to ends
        → FindsBackWithin (P.marks pattern.now bytes.now) at to result }
{
    let mut left = ends;
    while left != 0 {
        let bit = highest(left);
        let end = at + bit + 1;
        if let Some(start) = pattern.mark_to(bytes, end) {
            return Some(Mark { start, end });
        }
        left = without(left, bit);
    }
    None
}

// The last mark that ends after `at` up to `to`, by a question at each offset.
#[inline(always)]
pub(crate) fn last_asked<P: Pattern>(
    pattern: &P,
    bytes: &[u8],
    at: usize,
    to: usize,
) -> Option<Mark>
    ensures { FindsBackWithin (P.marks pattern.now bytes.now) at to result }
{
    for last in (at..to).rev() {
        let end = last + 1;
        if let Some(start) = pattern.mark_to(bytes, end) {
            return Some(Mark { start, end });
        }
    }
    None
}

// The offset down from `at` to which no mark ends, where these bits were seen of those after it. Where
// nothing may end for a while, the pattern skips.
#[inline(always)]
fn look_down<P: Pattern>(pattern: &P, bytes: &[u8], at: usize, ends: u64) -> usize
    ensures high { result ≤ at }
    ensures passed { NoneEnds (P.marks pattern.now bytes.now) result at }
{
    if ends == 0 {
        pattern.skip_back(bytes, at)
    } else {
        at
    }
}

// The mark with the greatest end at or before the offset `before`, by new looks.
fn look_back<P: Pattern>(
    pattern: &P,
    bytes: &[u8],
    before: usize,
    seen: &mut SeenBack,
) -> Option<Mark>
    requires { before ≤ length bytes.now }
    ensures value { FindsBack (P.marks pattern.now bytes.now) before result }
    ensures seen { IsSeenBackOf (P.marks pattern.now bytes.now) seen.old
        → IsSeenBackOf (P.marks pattern.now bytes.now) seen.new }
{
    let mut to = before;
    while LANES <= to {
        let at = to - LANES;
        let ends = pattern.ends(bytes, at);
        *seen = SeenBack { at, bits: ends };
        if let Some(mark) = last_of(pattern, bytes, at, ends) {
            return Some(mark);
        }
        to = look_down(pattern, bytes, at, ends);
    }
    last_asked(pattern, bytes, 0, to)
}

/// The mark with the greatest end at or before the offset `before`; none exactly where there is
/// none. So it is where `seen` is what was seen of the same bytes for the pattern; it goes on from
/// there.
// Not one function with the first: it asks the pattern other questions, of other offsets.
#[inline(always)]
pub fn previous_mark<P: Pattern>(
    pattern: &P,
    bytes: &[u8],
    before: usize,
    seen: &mut SeenBack,
) -> Option<Mark>
    ensures value { IsSeenBackOf (P.marks pattern.now bytes.now) seen.old
        → FindsBack (P.marks pattern.now bytes.now) before result }
    ensures seen { IsSeenBackOf (P.marks pattern.now bytes.now) seen.old
        → IsSeenBackOf (P.marks pattern.now bytes.now) seen.new }
{
    let to = before.min(bytes.len());
    let Some(ends) = seen.rest(to) else {
        return look_back(pattern, bytes, to, seen);
    };
    if let Some(mark) = last_of(pattern, bytes, seen.at, ends) {
        return Some(mark);
    }
    look_back(pattern, bytes, seen.at, seen)
}

/// The mark with the greatest end at or before the offset `before`; none exactly where there is
/// none.
#[inline(always)]
pub fn last_mark<P: Pattern>(pattern: &P, bytes: &[u8], before: usize) -> Option<Mark>
    ensures { FindsBack (P.marks pattern.now bytes.now) before result }
{
    let to = before.min(bytes.len());
    let mut end = to;
    while end > 0 {
        if let Some(start) = pattern.mark_to(bytes, end) {
            return Some(Mark { start, end });
        }
        end -= 1;
        if to - end == CLOSE {
            return previous_mark(pattern, bytes, end, &mut SeenBack::nothing());
        }
    }
    None
}
