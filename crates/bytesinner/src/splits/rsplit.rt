// Splitting a text at a separator from the end.
ghost use Rattle.anystr.specs.Places.{Lists};
ghost use Rattle.anystr.specs.Texts.{bytes_of};
ghost use Rattle.bytesinner.specs.splits.Separated.{rsplit_of, SplitBack, Restore};
ghost use Rattle.bytesinner.specs.Written.{OfWritten, Cuttable};

use super::back::BackCutter;
use anystr::anystr::AnyStr;
use anystr::place::Place;
use anystr::refusal::Refusal;
use cutters::pieces::fill::list;
use searchers::substring::Substring;

/// Lists the places between the separators that are cut from the end, in the order of the text, as
/// starts and ends in bytes, and gives their number: at most `maxsplit` separators are cut, and a
/// negative `maxsplit` is no bound. Refused where the separator is empty (1), and else where the
/// list has too few entries (7, with the number of places); the list is then as it was.
// Beside `split_str`: it opens the other cutter, and its contract names the cuts from the end.
pub fn rsplit_str<S: AnyStr>(
    text: &S,
    sep: &S,
    maxsplit: i64,
    places: &mut [Place],
) -> Result<usize, Refusal>
    ensures list { Lists (rsplit_of (bytes_of S.AnyStr text.now) (bytes_of S.AnyStr sep.now)
        maxsplit) places.old places.new result }
    ensures rule { OfWritten (SplitBack (bytes_of S.AnyStr text.now) (bytes_of S.AnyStr sep.now)
        maxsplit) places.new result }
    ensures restores { OfWritten (Restore (bytes_of S.AnyStr text.now) (bytes_of S.AnyStr sep.now))
        places.new result }
    ensures cut { OfWritten (Cuttable (S.elements text.now)) places.new result }
{
    Substring::check(sep)?;
    let n = list(
        BackCutter::open(*text, Substring::new(*sep), maxsplit),
        places,
    )?;
    places[..n].reverse();
    Ok(n)
}
