// The bytes that a method makes of a sheet: those of replace, translate and join.
use super::listing::{Listing, listed, room, show_places};
use super::page::Page;
use super::stop::Stop;
use anystr::anystr::{AnyStr, MAX_BYTES};
use anystr::bytes::Bytes;
use anystr::optional::OptionalArg;
use anystr::place::Place;
use anystr::refusal::Refusal;
use bytesinner::lines::SplitLinesArgs;
use bytesinner::tables::translate::ByteInnerTranslateOptions;
use bytesinner::{join, maketrans, replace, translate};
use searchers::ascii::AsciiStr;
use searchers::bytesets::byteset::BYTE_VALUES;
use std::alloc::Global;
use text::Text;
use trays::buffer::Buffer;

// A method that makes bytes, with its arguments.
#[derive(Drop)]
enum Edit<'a, S: AnyStr> {
    Replace {
        from: S,
        to: S,
        maxcount: OptionalArg<i64>,
    },
    Translate(ByteInnerTranslateOptions<'a>),
    Join {
        sep: S,
        lines: &'a [Place],
    },
}

// Writes the bytes that the method makes.
fn pour<S: AnyStr>(sheet: &S, edit: &Edit<'_, S>, bytes: &mut [u8]) -> Result<(), Refusal> {
    let mut tray = Buffer::new(bytes);
    match edit {
        Edit::Replace { from, to, maxcount } => replace(sheet, from, to, *maxcount, &mut tray),
        Edit::Translate(options) => translate(&Bytes::new(sheet.as_bytes()), *options, &mut tray),
        Edit::Join { sep, lines } => join(sep, sheet, lines, &mut tray),
    }
}

// The bytes that the method makes.
fn made<S: AnyStr>(heap: Global, sheet: &S, edit: &Edit<'_, S>) -> Result<Vec<u8>, Stop> {
    let n = room(pour(sheet, edit, &mut []))?;
    let mut bytes = vec![in heap; 0; n]?;
    pour(sheet, edit, bytes.as_mut_slice())?;
    Ok(bytes)
}

// Shows a text line by line, each with its end.
fn show_with_ends<S: AsciiStr>(page: &mut Page, text: S) -> Result<(), Stop> {
    let lines = Listing::Lines(SplitLinesArgs { keepends: true });
    let places = listed(page.heap, &text, &lines)?;
    show_places(page, &text, places.as_slice())
}

// Shows bytes by their characters where they are well-formed text.
fn show_bytes(page: &mut Page, bytes: Bytes<'_>) -> Result<(), Stop> {
    match Text::try_from(bytes.as_bytes()) {
        Ok(text) => show_with_ends(page, text),
        Err(_) => show_with_ends(page, bytes),
    }
}

// Shows the bytes that were made, and their number. There can be more than a text may have.
fn show_made(page: &mut Page, bytes: &[u8]) -> Result<(), Stop> {
    match Bytes::try_from(bytes) {
        Ok(made) => show_bytes(page, made)?,
        Err(_) => page.line("not shown: more than ", MAX_BYTES, " bytes")?,
    }
    page.line("bytes ", bytes.len(), "")
}

fn show_edit<S: AnyStr>(page: &mut Page, sheet: &S, edit: &Edit<'_, S>) -> Result<(), Stop> {
    let bytes = made(page.heap, sheet, edit)?;
    show_made(page, bytes.as_slice())
}

/// The sheet with `to` in place of `from`, as often as `maxcount` allows.
pub fn show_replace<'a, S: AnyStr + TryFrom<&'a [u8], Error = Refusal>>(
    page: &mut Page,
    sheet: &S,
    from: &'a [u8],
    to: &'a [u8],
    maxcount: Option<i64>,
) -> Result<(), Stop> {
    let from = S::try_from(from)?;
    let to = S::try_from(to)?;
    let maxcount = OptionalArg::from(maxcount);
    show_edit(page, sheet, &Edit::Replace { from, to, maxcount })
}

// The table of translate that maps each byte of `from` to its partner in `to`.
fn table_of(from: &[u8], to: &[u8]) -> Result<[u8; BYTE_VALUES], Refusal> {
    let mut table = [0; BYTE_VALUES];
    let from = Bytes::try_from(from)?;
    let to = Bytes::try_from(to)?;
    maketrans(&from, &to, &mut Buffer::new(&mut table))?;
    Ok(table)
}

/// The sheet by the table of `from` and `to`, without the bytes to delete.
pub fn show_translate<S: AnyStr>(
    page: &mut Page,
    sheet: &S,
    from: &[u8],
    to: &[u8],
    delete: &[u8],
) -> Result<(), Stop> {
    let table = table_of(from, to)?;
    let options = ByteInnerTranslateOptions {
        table: Some(&table),
        delete: OptionalArg::Present(delete),
    };
    show_edit(page, sheet, &Edit::Translate(options))
}

/// The lines of the sheet, joined with `sep`.
pub fn show_join<'a, S: AsciiStr + TryFrom<&'a [u8], Error = Refusal>>(
    page: &mut Page,
    sheet: &S,
    sep: &'a [u8],
) -> Result<(), Stop> {
    let sep = S::try_from(sep)?;
    let args = SplitLinesArgs { keepends: false };
    let places = listed(page.heap, sheet, &Listing::Lines(args))?;
    let lines = places.as_slice();
    show_edit(page, sheet, &Edit::Join { sep, lines })
}
