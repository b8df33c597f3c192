// The interface of the kinds of text.
ghost use Rattle.std.specs.Prelude.{◌≡◌, ℕ, ◌≤◌, List, [], length, IfSome, ◌==◌};
ghost use Rattle.std.specs.Option.{option_map};
ghost use Rattle.std.specs.List.{concat};
ghost use Rattle.anystr.specs.Elements.{Cut, Part, Filled, OccursOnBoundaries, element_at};
ghost use Rattle.anystr.specs.Limits.{most_bytes};
ghost use Rattle.anystr.specs.Refusals.{PassesIf};

use super::refusal::Refusal;
use std::ops::Range;

/// The most bytes that a text may have.
pub const MAX_BYTES: usize = 16_777_216;

/// A text: a view of bytes that somebody else owns, read as a list of elements. A boundary is an
/// offset in bytes at which an element begins, or the length.
/// Whoever adds a kind shows its elements, by their encodings, and the three laws of them.
pub trait AnyStr: Copy {
    /// An element of a text.
    type Char: Copy;

    // the meaning of a text: the encodings of its elements, in order
    ghost elements: { Self → List (List ℕ) };

    // the encoding of an element
    ghost encoded: { Self.Char → List ℕ };

    // a law: no encoding is empty
    ghost filled: { (s : Self) → Filled (elements s) };

    // a law: a text is not too long
    ghost few: { (s : Self) → length (concat (elements s)) ≤ most_bytes };

    // a law: where a nonempty text occurs in another of its kind, it begins and ends at boundaries
    ghost whole: { (s t : Self) → OccursOnBoundaries (elements s) (concat (elements t)) };

    /// The bytes: the encodings of the elements, one after another.
    fn as_bytes(&self) -> &[u8]
        ensures { result.now ≡ concat (elements self.now) };

    /// The number of bytes.
    fn bytes_len(&self) -> usize
        ensures { result ≡ length (concat (elements self.now)) }
    {
        self.as_bytes().len()
    }

    /// Whether there is no byte.
    fn is_empty(&self) -> bool
        ensures { result ≡ (length (concat (elements self.now)) == 0) }
    {
        self.bytes_len() == 0
    }

    /// Whether the range, in bytes, can be cut out: refused (12, with 0) where it runs backward or
    /// one of its ends is no boundary.
    fn check_bytes(&self, range: Range<usize>) -> Result<(), Refusal>
        ensures { PassesIf (Cut (elements self.now) range.start range.end) (12, 0) result };

    /// The view of just the bytes in the range; the empty text where `check_bytes` refuses.
    fn get_bytes(&self, range: Range<usize>) -> Self
        ensures given { Cut (elements self.now) range.start range.end
            → Part (elements self.now) (elements result) range.start range.end }
        ensures refused { ¬ Cut (elements self.now) range.start range.end → elements result ≡ [] };

    /// The number of elements.
    fn element_count(&self) -> usize
        ensures { result ≡ length (elements self.now) };

    /// The element that begins at `offset`, in bytes, with the length of its encoding; none where
    /// none begins.
    fn element_at(&self, offset: usize) -> Option<(Self::Char, usize)>
        ensures element { option_map (λ x. encoded x.0) result
            ≡ element_at (elements self.now) offset }
        ensures len { IfSome result (λ x. x.1 ≡ length (encoded x.0)) };
}
