// A row with one text in place of another, written into a caller's memory.
ghost use Rattle.std.specs.Prelude.{◌≡◌, take, drop};
ghost use Rattle.anystr.specs.Texts.{bytes_of};
ghost use Rattle.bytesinner.specs.Openings.{unbounded};
ghost use Rattle.bytesinner.specs.replaces.Replaces.{replace_of};
ghost use Rattle.callers.specs.Replaced.{IsOverwritten};

use anystr::anystr::AnyStr;
use anystr::optional::OptionalArg;
use anystr::refusal::Refusal;
use bytesinner::replace;
use trays::buffer::Buffer;

/// Writes the row with `to` in place of each `from` at the start of the page; what is not written
/// on stays. Refused where `replace` refuses a result of that length (5), and else where the page
/// is too short (7, with the bytes needed), and then all of it is as it was.
pub fn replaced_onto<S: AnyStr>(row: &S, from: &S, to: &S, page: &mut [u8]) -> Result<(), Refusal>
    ensures { IsOverwritten (replace_of (S.elements row.now) (bytes_of S.AnyStr from.now)
        (bytes_of S.AnyStr to.now) unbounded) page.old page.new result }
{
    replace(row, from, to, OptionalArg::Missing, &mut Buffer::new(page))
}

/// The same into the first `room` bytes of the page alone: those past them are as they were,
/// whatever comes of it.
pub fn replaced_into<S: AnyStr>(
    row: &S,
    from: &S,
    to: &S,
    page: &mut [u8],
    room: usize,
) -> Result<(), Refusal>
    ensures front { IsOverwritten (replace_of (S.elements row.now) (bytes_of S.AnyStr from.now)
        (bytes_of S.AnyStr to.now) unbounded) (take room page.old) (take room page.new) result }
    ensures kept { drop room page.new ≡ drop room page.old }
{
    let end = room.min(page.len());
    let (front, _) = page.split_at_mut(end);
    replaced_onto(row, from, to, front)
}
