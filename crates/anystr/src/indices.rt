// Optional start and end of a search.
ghost use Rattle.std.specs.Prelude.{◌≡◌};
ghost use Rattle.anystr.specs.Indices.{offset_of, start_of, end_of};

use std::ops::Range;

// The offset that an index means: from the end where it is negative, and not below 0.
fn offset(index: i64, len: usize) -> usize
    ensures { result ≡ offset_of index len }
{
    if index < 0 {
        len.saturating_sub(index.unsigned_abs() as usize)
    } else {
        index as usize
    }
}

/// The offsets that an optional start and end mean in a text of `len` bytes: an index below 0
/// counts from the end, and an absent one means the whole. The start may lie past the end.
pub fn adjust_indices(start: Option<i64>, end: Option<i64>, len: usize) -> Range<usize>
    ensures start { result.start ≡ start_of start len }
    ensures end { result.end ≡ end_of end len }
{
    let from = start.map_or(0, |index| offset(index, len));
    let to = end.map_or(len, |index| offset(index, len).min(len));
    from..to
}
