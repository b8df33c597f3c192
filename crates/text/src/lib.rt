// The kind of text whose elements are Unicode scalar values in UTF-8.
#![tactic(auto)]

ghost use Rattle.std.specs.Prelude.{◌≡◌, ◌≤◌, [], length, IfOk};
ghost use Rattle.utf8.specs.Table.{IsWellFormed, TableIsUtf8};
ghost use Rattle.anystr.specs.Limits.{most_bytes};
ghost use Rattle.text.specs.Checks.{IsTextual, ChecksText};
ghost use Rattle.text.specs.OfText.{letters};

use anystr::anystr::{AnyStr, MAX_BYTES};
use anystr::refusal::Refusal;
use std::ops::Range;
use utf8::check_utf8;

/// A text whose elements are characters, that is Unicode scalar values. Its bytes are well formed
/// by Table 3-7 of the Unicode Standard.
#[derive(Clone, Copy)]
pub struct Text<'a> {
    text: &'a str,
    ghost few: { length text.now ≤ most_bytes },
    ghost formed: { ∥ IsWellFormed text.now ∥₁ },
}

impl<'a> TryFrom<&'a [u8]> for Text<'a> {
    type Error = Refusal;

    ghost try_from_gives = { λ bytes r. ChecksText bytes.now r
        × IfOk r (λ text. ⟦<Text<'a> as AnyStr>⟧.elements text ≡ letters bytes.now) };

    /// The text of the bytes; refused (6) where they are more than `MAX_BYTES`, and then (10, with
    /// the length of their longest well-formed beginning) where they are ill formed.
    fn try_from(bytes: &'a [u8]) -> Result<Text<'a>, Refusal> {
        if bytes.len() > MAX_BYTES {
            return Err(Refusal::TooLong);
        }
        let text = check_utf8(bytes).map_err(|formed| Refusal::IllFormed {
            formed: formed as u64,
        })?;
        Ok(Text { text })
    }
}

// The same two lines as in `Bytes`: provided by a trait, they could promise only what a ghost
// member says.
impl<'a> Text<'a> {
    /// Whether the bytes can be a text; refused (6) where they are more than `MAX_BYTES`, and then
    /// (10, with the length of their longest well-formed beginning) where they are ill formed.
    pub fn check(bytes: &[u8]) -> Result<(), Refusal>
        ensures answer { ChecksText bytes.now result }
        ensures table { TableIsUtf8 }
    {
        Text::try_from(bytes).map(|_| ())
    }

    /// The text of the bytes; the empty text where `check` refuses.
    pub fn new(bytes: &'a [u8]) -> Text<'a>
        ensures given { IsTextual bytes.now
            → ⟦<Text<'a> as AnyStr>⟧.elements result ≡ letters bytes.now }
        ensures refused { ¬ IsTextual bytes.now → ⟦<Text<'a> as AnyStr>⟧.elements result ≡ [] }
    {
        Text::try_from(bytes).unwrap_or(Text { text: "" })
    }
}

impl<'a> AnyStr for Text<'a> {
    ghost use Rattle.std.proofs.Math.Utf8.{encode};
    ghost use Rattle.text.specs.OfText.{filled as filled_text, few as few_text};
    ghost use Rattle.text.specs.OfText.{whole as whole_text};
    ghost use Rattle.text.specs.Text.{text_bytes, text_bytes-formed, text_bytes-few};

    type Char = char;

    ghost elements = { λ s. letters (text_bytes s) };

    ghost encoded = { encode };

    ghost filled = { λ s. filled_text (text_bytes s) };

    ghost few = { λ s. few_text (text_bytes s) (text_bytes-formed s) (text_bytes-few s) };

    ghost whole = { λ s t. whole_text (text_bytes s) (text_bytes t)
        (text_bytes-formed s) (text_bytes-formed t) };

    fn as_bytes(&self) -> &[u8] {
        self.text.as_bytes()
    }

    fn check_bytes(&self, range: Range<usize>) -> Result<(), Refusal> {
        if range.start <= range.end
            && self.text.is_char_boundary(range.start)
            && self.text.is_char_boundary(range.end)
        {
            Ok(())
        } else {
            Err(Refusal::BadPlace { index: 0 })
        }
    }

    fn get_bytes(&self, range: Range<usize>) -> Self {
        // not by `get`, as `Bytes` does: that of a `str` has no contract
        let Ok(()) = self.check_bytes(range.start..range.end) else {
            return Text { text: "" };
        };
        Text {
            text: &self.text[range],
        }
    }

    fn element_count(&self) -> usize {
        self.text.chars().count()
    }

    fn element_at(&self, offset: usize) -> Option<(char, usize)> {
        if !self.text.is_char_boundary(offset) {
            return None;
        }
        let c = self.text[offset..].chars().next()?;
        Some((c, c.len_utf8()))
    }
}
