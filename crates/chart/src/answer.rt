// What was asked of a sheet. One text for every kind of text.
use super::asked::{Ask, Manner, Splitter};
use super::compare::show_check;
use super::cut::{Cutting, show_cut};
use super::edit::{show_join, show_replace, show_translate};
use super::listing::{Listing, show_by_rows, show_listed};
use super::page::Page;
use super::stop::Stop;
use super::view::show_view;
use anystr::bytes::Bytes;
use anystr::refusal::Refusal;
use bytesinner::finds::either::Either;
use bytesinner::finds::options::ByteInnerFindOptions;
use bytesinner::lines::SplitLinesArgs;
use bytesinner::splitargs::SplitArgs;
use bytesinner::{count, find, rfind};
use searchers::ascii::AsciiStr;

// Looks for `sub` in the whole sheet.
fn everywhere<'a>(sub: &'a [u8]) -> ByteInnerFindOptions<'a> {
    ByteInnerFindOptions {
        sub: Either::A(sub),
        start: None,
        end: None,
    }
}

// The arguments of a split, with a separator of the sheet's kind.
fn split_args<'a, S: TryFrom<&'a [u8], Error = Refusal>>(
    splitter: &'a Splitter,
) -> Result<SplitArgs<S>, Refusal> {
    let sep = match &splitter.sep {
        Some(bytes) => Some(S::try_from(bytes.as_slice())?),
        None => None,
    };
    Ok(SplitArgs {
        sep,
        maxsplit: splitter.maxsplit,
    })
}

// Shows the places that a method lists, on the whole sheet or on each row by itself.
fn show_listing<S: AsciiStr>(
    page: &mut Page,
    sheet: &S,
    rows: bool,
    listing: &Listing<S>,
) -> Result<(), Stop> {
    let name = match listing {
        Listing::Lines(_) => "lines ",
        _ => "places ",
    };
    if rows {
        show_by_rows(page, sheet, name, listing)
    } else {
        show_listed(page, sheet, name, listing)
    }
}

// Shows what a search gave.
fn show_found(page: &mut Page, offset: Result<Option<usize>, Refusal>) -> Result<(), Stop> {
    match offset? {
        Some(offset) => page.line("found at ", offset, ""),
        None => page.say("none"),
    }
}

// Shows what a count gave.
fn show_count(page: &mut Page, times: Result<usize, Refusal>) -> Result<(), Stop> {
    page.line("times ", times?, "")
}

// Shows what a method gives on the sheet.
fn show_method<'a, S: AsciiStr + TryFrom<&'a [u8], Error = Refusal>>(
    page: &mut Page,
    sheet: &S,
    rows: bool,
    ask: &'a Ask,
) -> Result<(), Stop> {
    let bytes = Bytes::new(sheet.as_bytes());
    match ask {
        Ask::Split(args) => show_listing(page, sheet, rows, &Listing::Split(split_args(args)?)),
        Ask::Rsplit(args) => show_listing(page, sheet, rows, &Listing::Rsplit(split_args(args)?)),
        Ask::Lines { keep } => {
            let args = SplitLinesArgs { keepends: *keep };
            show_listing(page, sheet, rows, &Listing::Lines(args))
        }
        Ask::Find(sub) => show_found(page, find(&bytes, everywhere(sub.as_slice()))),
        Ask::Rfind(sub) => show_found(page, rfind(&bytes, everywhere(sub.as_slice()))),
        Ask::Count(sub) => show_count(page, count(&bytes, everywhere(sub.as_slice()))),
        Ask::Replace { from, to, maxcount } => {
            show_replace(page, sheet, from.as_slice(), to.as_slice(), *maxcount)
        }
        Ask::Translate { from, to, delete } => {
            show_translate(
                page,
                sheet,
                from.as_slice(),
                to.as_slice(),
                delete.as_slice(),
            )
        }
        Ask::Join { sep } => show_join(page, sheet, sep.as_slice()),
        // shown without a heading
        Ask::View { .. } | Ask::Check { .. } | Ask::Cut { .. } => Ok(()),
    }
}

// The words of a method, and what the sheet is.
fn show_heading<S: AsciiStr>(
    page: &mut Page,
    sheet: &S,
    words: &[String],
    kind: &str,
) -> Result<(), Stop> {
    for word in words.iter().skip(1) {
        page.word(word.as_bytes());
    }
    page.line(" on ", sheet.bytes_len(), kind)
}

/// Shows what was asked of a sheet of this kind, and tells whether nothing was found amiss.
pub fn show<'a, S: AsciiStr + TryFrom<&'a [u8], Error = Refusal>>(
    page: &mut Page,
    sheet: &S,
    checked: Result<(), Refusal>,
    words: &[String],
    manner: &Manner<'_>,
    ask: &'a Ask,
) -> Result<bool, Stop> {
    match ask {
        Ask::View { sep } => show_view(page, sheet, checked, S::try_from(sep.as_slice())?)?,
        Ask::Check { sep, fields } => {
            return show_check(page, sheet, S::try_from(sep.as_slice())?, *fields);
        }
        Ask::Cut { sep, bound, calls } => {
            let cutting = Cutting {
                sheet: *sheet,
                sep: S::try_from(sep.as_slice())?,
                bound: *bound,
            };
            show_cut(page, cutting, calls.as_slice())?;
        }
        method => {
            let kind = match checked {
                Ok(()) if !manner.bytes => " bytes of text",
                _ => " bytes",
            };
            show_heading(page, sheet, words, kind)?;
            show_method(page, sheet, manner.rows, method)?;
        }
    }
    Ok(true)
}
