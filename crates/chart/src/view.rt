// The rows of a sheet, with their fields.
use super::page::{Number, Page};
use super::stop::Stop;
use anystr::place::Place;
use anystr::refusal::Refusal;
use cutters::bound::UNBOUNDED;
use cutters::cutter::Cutter;
use cutters::piece::Piece;
use searchers::ascii::AsciiStr;
use searchers::bytesets::asciiset::AsciiSet;
use searchers::lineends::LineEnds;
use searchers::substring::Substring;
use sheets::counts::count_in;
use std::num::Saturating;

// The counts below a sheet. A text has far fewer rows and fields than a number holds, so no count
// saturates.
#[derive(Clone, Copy, Default)]
struct Tally {
    rows: Saturating<usize>,
    fields: Saturating<usize>,
    empty: Saturating<usize>,
}

/// Where a piece of a row stands in the sheet. No sum saturates: a sheet has far fewer bytes than a
/// number holds.
pub fn place_in(row: Place, start: usize, end: usize) -> Place {
    Place {
        start: row.start.saturating_add(start),
        end: row.start.saturating_add(end),
    }
}

// Shows the fields of a row, and counts them.
fn show_fields<S: AsciiStr>(
    page: &mut Page,
    text: S,
    row: Place,
    sep: Substring<S>,
    tally: &mut Tally,
) -> Result<(), Stop> {
    for (number, field) in (1..).zip(Cutter::open(text, sep, UNBOUNDED).pieces()) {
        let Piece { start, end } = field;
        let content = text.get_bytes(start..end);
        page.part(
            Number::In(tally.rows.0, number),
            place_in(row, start, end),
            &content,
        )?;
        tally.fields += 1;
        if content.is_empty() {
            tally.empty += 1;
        }
    }
    Ok(())
}

// Shows the rows, with their fields; an empty one behind the last line end is none.
fn show_rows<S: AsciiStr>(page: &mut Page, sheet: S, sep: Substring<S>) -> Result<Tally, Stop> {
    let len = sheet.bytes_len();
    let mut tally = Tally::default();
    for piece in Cutter::open(sheet, LineEnds, UNBOUNDED).pieces() {
        if piece.start < len {
            let row = Place::from(piece);
            let text = sheet.get_bytes(row.start..row.end);
            tally.rows += 1;
            page.row(tally.rows.0, row, &text)?;
            show_fields(page, text, row, sep, &mut tally)?;
        }
    }
    Ok(tally)
}

// Shows how many rows, fields, tabs and blanks there are.
fn show_counts<S: AsciiStr>(page: &mut Page, sheet: &S, tally: &Tally) -> Result<(), Stop> {
    if page.tsv {
        return Ok(());
    }
    page.say("")?;
    page.count("rows", tally.rows.0)?;
    page.count("fields", tally.fields.0)?;
    page.count("empty fields", tally.empty.0)?;
    page.count("tabs", count_in(sheet, &AsciiSet::new(b"\t")))?;
    page.count("blanks", count_in(sheet, &AsciiSet::new(b" ")))
}

// Shows the sheet's size, and what the check for well-formed text said.
fn show_head<S: AsciiStr>(
    page: &mut Page,
    sheet: &S,
    checked: Result<(), Refusal>,
) -> Result<(), Stop> {
    page.line("sheet  ", sheet.bytes_len(), " bytes")?;
    match checked {
        Ok(()) => page.line("text   well formed, ", sheet.element_count(), " characters"),
        Err(refusal) => {
            let offset = refusal.code().1 as usize;
            page.line(
                "text   not well formed from offset ",
                offset,
                " on (refusal 10)",
            )
        }
    }
}

/// Shows a sheet, with what its check for well-formed text said.
pub fn show_view<S: AsciiStr>(
    page: &mut Page,
    sheet: &S,
    checked: Result<(), Refusal>,
    sep: S,
) -> Result<(), Stop> {
    Substring::check(&sep)?;
    show_head(page, sheet, checked)?;
    let tally = show_rows(page, *sheet, Substring::new(sep))?;
    show_counts(page, sheet, &tally)
}
