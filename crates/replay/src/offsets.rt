// Answers that are an offset or a number.
use super::case::Find;
use super::fault::Fault;
use anystr::bytes::Bytes;
use anystr::refusal::Refusal;
use bytesinner::count;
use bytesinner::finds::either::Either;
use bytesinner::finds::options::ByteInnerFindOptions;

fn options(case: &Find) -> ByteInnerFindOptions<'_> {
    ByteInnerFindOptions {
        sub: match &case.sub {
            Either::A(bytes) => Either::A(bytes.as_slice()),
            Either::B(number) => Either::B(*number),
        },
        start: case.start,
        end: case.end,
    }
}

// Where a byte string or a byte stands, by a method that looks for it from either end.
pub(super) fn write_find<
    F: FnOnce(&Bytes<'_>, ByteInnerFindOptions<'_>) -> Result<Option<usize>, Refusal>,
>(case: &Find, page: &mut String, find: F) -> Result<(), Fault>
    requires { F.IsAlwaysCallable find }
{
    let text = Bytes::try_from(case.text.as_slice())?;
    match find(&text, options(case))? {
        Some(offset) => write!(page, "found {offset}")?,
        None => page.push_str("none")?,
    }
    Ok(())
}

/// How often it stands there.
pub fn write_count(case: &Find, page: &mut String) -> Result<(), Fault> {
    let text = Bytes::try_from(case.text.as_slice())?;
    let times = count(&text, options(case))?;
    Ok(write!(page, "count {times}")?)
}
