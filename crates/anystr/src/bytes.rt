// The kind of text whose elements are bytes.
ghost use Rattle.std.specs.Prelude.{◌≡◌, ◌<◌, ◌≤◌, [], ◌∷◌, length, IfOk};
ghost use Rattle.anystr.specs.Limits.{most_bytes};
ghost use Rattle.anystr.specs.OfBytes.{singles};
ghost use Rattle.anystr.specs.Refusals.{PassesIf};

use super::anystr::{AnyStr, MAX_BYTES};
use super::refusal::Refusal;
use std::ops::Range;

/// A text whose elements are bytes, so that every offset in it is a boundary.
#[derive(Clone, Copy)]
pub struct Bytes<'a> {
    bytes: &'a [u8],
    ghost few: { length bytes.now ≤ most_bytes },
}

impl<'a> TryFrom<&'a [u8]> for Bytes<'a> {
    type Error = Refusal;

    ghost try_from_gives = { λ bytes r. PassesIf (length bytes.now ≤ most_bytes) (6, 0) r
        × IfOk r (λ text. ⟦<Bytes<'a> as AnyStr>⟧.elements text ≡ singles bytes.now) };

    /// The text of the bytes; refused (6) where they are more than `MAX_BYTES`.
    fn try_from(bytes: &'a [u8]) -> Result<Bytes<'a>, Refusal> {
        if bytes.len() > MAX_BYTES {
            Err(Refusal::TooLong)
        } else {
            Ok(Bytes { bytes })
        }
    }
}

impl<'a> Bytes<'a> {
    /// Whether the bytes can be a text; refused (6) where they are more than `MAX_BYTES`.
    pub fn check(bytes: &[u8]) -> Result<(), Refusal>
        ensures { PassesIf (length bytes.now ≤ most_bytes) (6, 0) result }
    {
        Bytes::try_from(bytes).map(|_| ())
    }

    /// The text of the bytes; the empty text where `check` refuses.
    pub fn new(bytes: &'a [u8]) -> Bytes<'a>
        ensures given { length bytes.now ≤ most_bytes
            → ⟦<Bytes<'a> as AnyStr>⟧.elements result ≡ singles bytes.now }
        ensures refused { most_bytes < length bytes.now
            → ⟦<Bytes<'a> as AnyStr>⟧.elements result ≡ [] }
    {
        Bytes::try_from(bytes).unwrap_or(Bytes { bytes: &[] })
    }
}

impl<'a> AnyStr for Bytes<'a> {
    ghost use Rattle.anystr.specs.Bytes.{byte_list, byte_list-few};
    ghost use Rattle.anystr.specs.OfBytes.{filled as filled_bytes, few as few_bytes};
    ghost use Rattle.anystr.specs.OfBytes.{whole as whole_bytes};

    type Char = u8;

    ghost elements = { λ s. singles (byte_list s) };

    ghost encoded = { λ b. b ∷ [] };

    ghost filled = { λ s. filled_bytes (byte_list s) };

    ghost few = { λ s. few_bytes (byte_list s) (byte_list-few s) };

    ghost whole = { λ s t. whole_bytes (byte_list s) (byte_list t) };

    fn as_bytes(&self) -> &[u8] {
        self.bytes
    }

    fn check_bytes(&self, range: Range<usize>) -> Result<(), Refusal> {
        if range.start <= range.end && range.end <= self.bytes.len() {
            Ok(())
        } else {
            Err(Refusal::BadPlace { index: 0 })
        }
    }

    fn get_bytes(&self, range: Range<usize>) -> Self {
        Bytes {
            bytes: self.bytes.get(range).unwrap_or(&[]),
        }
    }

    fn element_count(&self) -> usize {
        self.bytes.len()
    }

    fn element_at(&self, offset: usize) -> Option<(u8, usize)> {
        let byte = self.bytes.get(offset)?;
        Some((*byte, 1))
    }
}
