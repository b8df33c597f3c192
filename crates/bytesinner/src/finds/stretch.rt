// The part of a text in which a needle is sought.
ghost use Rattle.std.specs.Prelude.{◌≡◌, ◌<◌, ◌≤◌, length, MatchOption, IfSome};
ghost use Rattle.anystr.specs.Bytes.{byte_list};
ghost use Rattle.anystr.specs.Places.{part};

use anystr::anystr::AnyStr;
use anystr::bytes::Bytes;
use std::ops::Range;

// A text, and the offsets between which a needle is sought in it.
#[derive(Drop)]
pub(super) struct Stretch<'a> {
    pub(super) text: Bytes<'a>,
    pub(super) range: Range<usize>,
    ghost within: { range.end ≤ length (byte_list text) },
}

impl<'a> Stretch<'a> {
    // The bytes between the offsets; none where the start is past the end.
    pub(super) fn part(&self) -> Option<Bytes<'a>>
        ensures order { MatchOption result (self.now.range.end < self.now.range.start)
            (λ _. self.now.range.start ≤ self.now.range.end) }
        ensures bytes { IfSome result (λ p. byte_list p
            ≡ part (byte_list self.now.text) (self.now.range.start, self.now.range.end)) }
    {
        if self.range.start > self.range.end {
            return None;
        }
        Some(self.text.get_bytes(self.range.start..self.range.end))
    }
}
