// Answers that a text gives by itself.
use super::case::{Element, Part};
use super::fault::Fault;
use super::kind::Kind;
use super::page::write_bytes;
use anystr::place::Place;

/// The element that begins at an offset.
pub fn write_element<'a, S: Kind<'a>>(case: &'a Element, page: &mut String) -> Result<(), Fault> {
    let text = S::try_from(case.text.as_slice())?;
    match text.element_at(case.offset) {
        Some((element, _)) => S::write_element(element, page)?,
        None => page.push_str("none")?,
    }
    Ok(())
}

/// A stretch of a text.
pub fn write_part<'a, S: Kind<'a>>(case: &'a Part, page: &mut String) -> Result<(), Fault> {
    let text = S::try_from(case.text.as_slice())?;
    let Place { start, end } = case.place;
    text.check_bytes(start..end)?;
    let part = text.get_bytes(start..end);
    Ok(write_bytes("bytes", part.as_bytes(), page)?)
}
