//! The rows of a sheet whose number of fields is not the expected one.
ghost use Rattle.std.specs.Prelude.{◌≡◌, ◌⊎◌, ◌<◌, false, [], map, length, IfOk, IfErr};
ghost use Rattle.anystr.specs.Elements.{Cut};
ghost use Rattle.anystr.specs.Places.{part, stretch, stretches};
ghost use Rattle.anystr.specs.Texts.{bytes_of};
ghost use Rattle.bytesinner.specs.Written.{Cuttable};
ghost use Rattle.bytesinner.specs.lines.Lines.{lines_of};
ghost use Rattle.sheets.specs.Rows.{field_count, header_count, expected_of};
ghost use Rattle.sheets.specs.Rows.{deviating as deviating_of, deviants_of, seen, needed_of};
ghost use Rattle.sheets.specs.declared.rows.RowsError.TheVariants.{Refused, Memory};

use anystr::anystr::AnyStr;
use anystr::place::Place;
use anystr::refusal::Refusal;
use bytesinner::lines::SplitLinesArgs;
use bytesinner::splitlines;
use bytesinner::splits::split::split_str;
use cutters::bound::UNBOUNDED;
use searchers::ascii::AsciiStr;
use searchers::substring::Substring;
use std::alloc::{AllocError, Global};
use thiserror::Error;

/// Why the rows of a sheet cannot be compared.
#[derive(Clone, Copy, Debug, PartialEq, Eq, Error)]
pub enum RowsError {
    #[error("refused ({})", .0.code().0)]
    Refused(Refusal),
    #[error("out of memory")]
    Memory,
}

impl From<Refusal> for RowsError {
    ghost from_gives = { λ r e. e ≡ Refused r };

    fn from(refusal: Refusal) -> RowsError {
        RowsError::Refused(refusal)
    }
}

impl From<AllocError> for RowsError {
    ghost from_gives = { λ _ e. e ≡ Memory };

    fn from(_: AllocError) -> RowsError {
        RowsError::Memory
    }
}

/// A row whose number of fields is not the expected one.
#[derive(Clone, Copy, Debug, PartialEq, Eq)]
pub struct Deviant {
    /// the number of the row, from 1
    pub number: usize,
    /// where the row stands in the sheet, without its line end
    pub place: Place,
    /// how many fields it has
    pub fields: usize,
}

/// What was seen of a sheet's rows.
#[derive(Drop)]
pub struct Survey {
    /// how many fields were expected
    pub expected: usize,
    /// the rows that have another number of them, in the order of the sheet
    pub deviants: Vec<Deviant>,
}

const BARE: SplitLinesArgs = SplitLinesArgs { keepends: false };

// How many entries a list of places wants, by the answer of a call that had none.
fn needed(answer: Result<usize, Refusal>) -> usize
    ensures { result ≡ needed_of answer }
{
    match answer {
        Ok(n) => n,
        Err(refusal) => refusal.code().1 as usize,
    }
}

// The rows of a sheet.
fn rows<S: AsciiStr>(heap: Global, sheet: &S) -> Result<Vec<Place>, AllocError>
    ensures value { IfOk result (λ rows. stretches rows.items
        ≡ lines_of (bytes_of S.AnyStr sheet.now) false) }
    ensures cut { IfOk result (λ _. Cuttable (S.elements sheet.now)
        (lines_of (bytes_of S.AnyStr sheet.now) false)) }
{
    let n = needed(splitlines(sheet, BARE, &mut []));
    let mut rows = vec![in heap; Place::default(); n]?;
    // not refused: there is an entry for each row
    let _ = splitlines(sheet, BARE, rows.as_mut_slice());
    Ok(rows)
}

// How many fields a row of the sheet has; none where the separator is empty.
fn fields<S: AnyStr>(sheet: &S, row: Place, sep: &S) -> usize
    requires { Cut (S.elements sheet.now) row.start row.end }
    ensures { result ≡ field_count (bytes_of S.AnyStr sep.now)
        (part (bytes_of S.AnyStr sheet.now) (stretch row)) }
{
    let row = sheet.get_bytes(row.start..row.end);
    needed(split_str(&row, sep, UNBOUNDED, &mut []))
}

// How many fields the first row has.
fn header_fields<S: AnyStr>(sheet: &S, rows: &[Place], sep: &S) -> usize
    requires { Cuttable (S.elements sheet.now) (stretches rows.now) }
    ensures { result ≡ header_count (bytes_of S.AnyStr sep.now) (bytes_of S.AnyStr sheet.now)
        (stretches rows.now) }
{
    match rows {
        [] => 0,
        [row, ..] => fields(sheet, *row, sep),
    }
}

// The rows whose number of fields is not the expected one.
fn deviating<S: AnyStr>(
    heap: Global,
    sheet: &S,
    rows: &[Place],
    sep: &S,
    expected: usize,
) -> Result<Vec<Deviant>, AllocError>
    requires { Cuttable (S.elements sheet.now) (stretches rows.now) }
    ensures { IfOk result (λ deviants. map seen deviants.items
        ≡ deviating_of (bytes_of S.AnyStr sep.now) (bytes_of S.AnyStr sheet.now) expected 1
        (stretches rows.now)) }
{
    let mut deviants = Vec::new(heap);
    for (index, row) in rows.iter().enumerate() {
        let fields = fields(sheet, *row, sep);
        if fields != expected {
            deviants.push(Deviant {
                number: index + 1,
                place: *row,
                fields,
            })?;
        }
    }
    Ok(deviants)
}

/// Goes over the rows of a sheet, whose fields stand between separators, and tells those whose
/// number of fields is not the expected one: `expected`, or without it that of the first row.
///
/// Refused where the separator is empty (1), and where memory runs out.
pub fn survey_rows<S: AsciiStr>(
    heap: Global,
    sheet: &S,
    sep: &S,
    expected: Option<usize>,
) -> Result<Survey, RowsError>
    ensures expected { IfOk result (λ s. s.expected ≡ expected_of (bytes_of S.AnyStr sep.now)
        (bytes_of S.AnyStr sheet.now) expected) }
    ensures deviants { IfOk result (λ s. map seen s.deviants.items
        ≡ deviants_of (bytes_of S.AnyStr sep.now) (bytes_of S.AnyStr sheet.now) s.expected) }
    ensures empty { IfOk result (λ _. 0 < length (bytes_of S.AnyStr sep.now)) }
    ensures refused { IfErr result (λ e. (e ≡ RowsError.Memory)
        ⊎ ((e ≡ RowsError.Refused Refusal.EmptyNeedle) × (bytes_of S.AnyStr sep.now ≡ []))) }
{
    Substring::check(sep)?;
    let rows = rows(heap, sheet)?;
    let rows = rows.as_slice();
    let expected = expected.unwrap_or(header_fields(sheet, rows, sep));
    let deviants = deviating(heap, sheet, rows, sep, expected)?;
    Ok(Survey { expected, deviants })
}
