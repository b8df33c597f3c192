// The places that a method lists: those of split, rsplit and splitlines.
use super::page::{Number, Page};
use super::stop::Stop;
use super::view::place_in;
use anystr::place::Place;
use anystr::refusal::Refusal;
use bytesinner::lines::SplitLinesArgs;
use bytesinner::splitargs::SplitArgs;
use bytesinner::{rsplit, split, splitlines};
use searchers::ascii::AsciiStr;
use std::alloc::Global;

/// A method that lists places, with its arguments.
#[derive(Clone, Copy)]
pub enum Listing<S: AsciiStr> {
    Split(SplitArgs<S>),
    Rsplit(SplitArgs<S>),
    Lines(SplitLinesArgs),
}

/// How much room a method takes, by its answer where it had none: the refusal says how much the
/// whole takes.
pub fn room<R: Drop>(answer: Result<R, Refusal>) -> Result<usize, Refusal> {
    match answer {
        Ok(_) => Ok(0),
        Err(Refusal::TooSmall { needed }) => Ok(needed as usize),
        Err(refusal) => Err(refusal),
    }
}

// Writes the places that the method lists.
fn list<S: AsciiStr>(
    sheet: &S,
    listing: &Listing<S>,
    places: &mut [Place],
) -> Result<usize, Refusal> {
    match listing {
        Listing::Split(args) => split(sheet, *args, places),
        Listing::Rsplit(args) => rsplit(sheet, *args, places),
        Listing::Lines(args) => splitlines(sheet, *args, places),
    }
}

/// The places that the method lists.
pub fn listed<S: AsciiStr>(
    heap: Global,
    sheet: &S,
    listing: &Listing<S>,
) -> Result<Vec<Place>, Stop> {
    let n = room(list(sheet, listing, &mut []))?;
    let mut places = vec![in heap; Place::default(); n]?;
    list(sheet, listing, places.as_mut_slice())?;
    Ok(places)
}

/// Shows places of a text, each with its content.
pub fn show_places<S: AsciiStr>(page: &mut Page, text: &S, places: &[Place]) -> Result<(), Stop> {
    for (number, place) in (1..).zip(places) {
        let content = text.get_bytes(place.start..place.end);
        page.part(Number::One(number), *place, &content)?;
    }
    Ok(())
}

// Shows the places that the method lists in a row, each where it stands in the sheet, and gives
// their number.
fn show_row<S: AsciiStr>(
    page: &mut Page,
    sheet: &S,
    row: Place,
    number: usize,
    listing: &Listing<S>,
) -> Result<usize, Stop> {
    let text = sheet.get_bytes(row.start..row.end);
    let places = listed(page.heap, &text, listing)?;
    if !page.tsv {
        page.row(number, row, &text)?;
    }
    for (index, place) in (1..).zip(places.as_slice()) {
        let content = text.get_bytes(place.start..place.end);
        page.part(
            Number::In(number, index),
            place_in(row, place.start, place.end),
            &content,
        )?;
    }
    Ok(places.len())
}

const BARE: SplitLinesArgs = SplitLinesArgs { keepends: false };

/// Shows the places that the method lists on each row by itself, and below them their number, after
/// `name`.
pub fn show_by_rows<S: AsciiStr>(
    page: &mut Page,
    sheet: &S,
    name: &str,
    listing: &Listing<S>,
) -> Result<(), Stop> {
    let rows = listed(page.heap, sheet, &Listing::Lines(BARE))?;
    let mut total = 0usize;
    for (number, row) in (1..).zip(rows.as_slice()) {
        total = total.saturating_add(show_row(page, sheet, *row, number, listing)?);
    }
    page.line(name, total, "")
}

/// Shows the places that the method lists, and below them their number, after `name`.
pub fn show_listed<S: AsciiStr>(
    page: &mut Page,
    sheet: &S,
    name: &str,
    listing: &Listing<S>,
) -> Result<(), Stop> {
    let places = listed(page.heap, sheet, listing)?;
    show_places(page, sheet, places.as_slice())?;
    page.line(name, places.len(), "")
}
