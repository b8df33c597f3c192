// What a search has seen of a text, so that the next one need not look again.
ghost use Rattle.std.specs.Prelude.{IfSome};
ghost use Rattle.searchers.specs.Marks.{Marks};
ghost use Rattle.searchers.specs.Seen.{IsSeenOf, IsSeenBackOf, Rest, RestBack};

use crate::lanes::LANES;

/// What was seen of a text: at which of the 64 offsets from one on marks may begin.
#[derive(Clone, Copy)]
pub struct Seen {
    // the first of the offsets
    pub(crate) at: usize,
    // bit k is set where a mark may begin at `at + k`
    pub(crate) bits: u64,
}

impl Seen {
    /// Nothing was seen yet: marks may begin everywhere.
    pub fn nothing() -> Seen
        ensures { (marks : Marks) → IsSeenOf marks result }
    {
        // past every text, so that no search takes it up
        Seen {
            at: usize::MAX,
            bits: u64::MAX,
        }
    }

    // The bits from `from` on, where it is one of the offsets: bit k is that of `from + k`.
    #[inline(always)]
    pub(crate) fn rest(&self, from: usize) -> Option<u64>
        ensures { IfSome result (Rest self.now from) }
    {
        let passed = from.checked_sub(self.at)?;
        if passed >= LANES {
            return None;
        }
        Some(self.bits >> passed)
    }
}

/// What was seen of a text from its end: at which of the 64 offsets after one marks may end.
// A type of its own beside `Seen`, with which it must not be mixed up.
#[derive(Clone, Copy)]
pub struct SeenBack {
    // the offset after which they come
    pub(crate) at: usize,
    // bit k is set where a mark may end at `at + k + 1`
    pub(crate) bits: u64,
}

impl SeenBack {
    /// Nothing was seen yet: marks may end everywhere.
    pub fn nothing() -> SeenBack
        ensures { (marks : Marks) → IsSeenBackOf marks result }
    {
        // as for a search from the front
        SeenBack {
            at: usize::MAX,
            bits: !0,
        }
    }

    // The bits of the offsets up to `to`, where it is one of them.
    #[inline(always)]
    pub(crate) fn rest(&self, to: usize) -> Option<u64>
        ensures { IfSome result (RestBack self.now to) }
    {
        let left = to.checked_sub(self.at)?;
        if left == 0 || LANES < left {
            return None;
        }
        Some(self.bits & (u64::MAX >> (LANES - left)))
    }
}
