// What a call gives on a sheet.
use super::call::Call;
use super::desk::Desk;
use anystr::anystr::AnyStr;
use anystr::bytes::Bytes;
use anystr::optional::OptionalArg;
use anystr::place::Place;
use anystr::refusal::Refusal;
use bytesinner::finds::either::Either;
use bytesinner::finds::options::ByteInnerFindOptions;
use bytesinner::lines::SplitLinesArgs;
use bytesinner::splitargs::SplitArgs;
use bytesinner::tables::translate::ByteInnerTranslateOptions;
use bytesinner::{count, find, join, replace, rfind, rsplit, split, splitlines, translate};
use cutters::bound::UNBOUNDED;
use trays::buffer::Buffer;

// At each separator, or at whitespace where there is none.
fn everywhere<'a>(sep: Option<&'a [u8]>) -> SplitArgs<Bytes<'a>> {
    SplitArgs {
        sep: sep.map(Bytes::new),
        maxsplit: UNBOUNDED,
    }
}

// A byte string, in the whole text.
fn anywhere<'a>(sub: &'a [u8]) -> ByteInnerFindOptions<'a> {
    ByteInnerFindOptions {
        sub: Either::A(sub),
        start: None,
        end: None,
    }
}

const WITHOUT_ENDS: SplitLinesArgs = SplitLinesArgs { keepends: false };

// How many bytes `fill` puts into a tray over `bytes`.
fn fill<F: FnOnce(&mut Buffer<'_>) -> Result<(), Refusal>>(
    bytes: &mut [u8],
    fill: F,
) -> Result<usize, Refusal>
    requires { F.IsAlwaysCallable fill }
{
    let mut tray = Buffer::new(bytes);
    fill(&mut tray)?;
    Ok(tray.as_bytes().len())
}

// How many bytes the text has with `to` in place of `from`, which are written.
fn fill_replaced(
    text: &Bytes<'_>,
    from: &[u8],
    to: &[u8],
    bytes: &mut [u8],
) -> Result<usize, Refusal> {
    let (from, to) = (Bytes::new(from), Bytes::new(to));
    fill(
        bytes,
        |tray| replace(text, &from, &to, OptionalArg::Missing, tray),
    )
}

// The offset; the text's length where there is none.
fn or_length(found: Result<Option<usize>, Refusal>, text: &Bytes<'_>) -> Result<usize, Refusal> {
    Ok(found?.unwrap_or(text.bytes_len()))
}

// The script's steps on a line: the sum of the number of fields, the offset of the word and the number of bytes made.
fn do_line(
    line: &Bytes<'_>,
    word: &[u8],
    fields: &mut [Place],
    bytes: &mut [u8],
) -> Result<usize, Refusal> {
    let count = split(line, everywhere(Some(b",")), fields)?;
    let offset = or_length(find(line, anywhere(word)), line)?;
    let len = fill_replaced(line, b",", b";", bytes)?;
    Ok(count.wrapping_add(offset).wrapping_add(len))
}

// The sum of what the script's steps give on each line.
fn do_script(sheet: &Bytes<'_>, word: &[u8], desk: &mut Desk) -> Result<usize, Refusal> {
    let lines = splitlines(sheet, WITHOUT_ENDS, desk.places.as_mut_slice())?;
    let mut sum = 0usize;
    for place in desk.places.iter().take(lines) {
        let line = sheet.get_bytes(place.start..place.end);
        let number = do_line(
            &line,
            word,
            desk.fields.as_mut_slice(),
            desk.bytes.as_mut_slice(),
        )?;
        sum = sum.wrapping_add(number);
    }
    Ok(sum)
}

/// Does the call; gives the number of places, of occurrences or of bytes, or the offset, which is the sheet's length
/// where there is none.
pub fn answer(call: Call<'_>, sheet: &Bytes<'_>, desk: &mut Desk) -> Result<usize, Refusal> {
    let places = desk.places.as_mut_slice();
    let bytes = desk.bytes.as_mut_slice();
    match call {
        Call::Split(sep) => split(sheet, everywhere(sep), places),
        Call::Rsplit(sep) => rsplit(sheet, everywhere(sep), places),
        Call::Splitlines => splitlines(sheet, WITHOUT_ENDS, places),
        Call::Find(sub) => or_length(find(sheet, anywhere(sub)), sheet),
        Call::Rfind(sub) => or_length(rfind(sheet, anywhere(sub)), sheet),
        Call::Count(sub) => count(sheet, anywhere(sub)),
        Call::Replace { from, to } => fill_replaced(sheet, from, to, bytes),
        Call::Translate { delete } => {
            let options = ByteInnerTranslateOptions {
                table: Some(&desk.table),
                delete: OptionalArg::Present(delete),
            };
            fill(bytes, |tray| translate(sheet, options, tray))
        }
        Call::Join { with, .. } => {
            let with = Bytes::new(with);
            fill(bytes, |tray| join(&with, sheet, places, tray))
        }
        Call::Script { word } => do_script(sheet, word, desk),
    }
}
