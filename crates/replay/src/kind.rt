// The kinds of text, as a case asks for them.
use super::page::write_bytes;
use anystr::bytes::Bytes;
use anystr::refusal::Refusal;
use searchers::ascii::AsciiStr;
use searchers::bytesets::asciiset::AsciiSet;
use searchers::bytesets::byteset::ByteSet;
use searchers::searcher::ReverseSearcher;
use std::alloc::AllocError;
use text::Text;

const ELEMENT: &str = "element";

/// A kind of text over bytes that live for 'a.
pub trait Kind<'a>: AsciiStr + TryFrom<&'a [u8], Error = Refusal> {
    /// the searcher for the bytes of a set
    type Set: ReverseSearcher<Self> + Drop;

    /// The set of the bytes; refused where they cannot be one.
    fn make_set(bytes: &[u8]) -> Result<Self::Set, Refusal>;

    /// Writes the encoding of an element.
    fn write_element(element: Self::Char, page: &mut String) -> Result<(), AllocError>;
}

impl<'a> Kind<'a> for Bytes<'a> {
    type Set = ByteSet;

    fn make_set(bytes: &[u8]) -> Result<ByteSet, Refusal> {
        Ok(ByteSet::new(bytes))
    }

    fn write_element(element: u8, page: &mut String) -> Result<(), AllocError> {
        write_bytes(ELEMENT, &[element], page)
    }
}

impl<'a> Kind<'a> for Text<'a> {
    type Set = AsciiSet;

    fn make_set(bytes: &[u8]) -> Result<AsciiSet, Refusal> {
        AsciiSet::try_from(bytes)
    }

    fn write_element(element: char, page: &mut String) -> Result<(), AllocError> {
        let mut bytes = [0; 4];
        write_bytes(ELEMENT, element.encode_utf8(&mut bytes).as_bytes(), page)
    }
}
