// Splitting a text at a separator from the front.
ghost use Rattle.anystr.specs.Places.{Lists};
ghost use Rattle.anystr.specs.Texts.{bytes_of};
ghost use Rattle.bytesinner.specs.splits.Separated.{split_of, SplitFront, Restore};
ghost use Rattle.bytesinner.specs.Written.{OfWritten, Cuttable};

use anystr::anystr::AnyStr;
use anystr::place::Place;
use anystr::refusal::Refusal;
use cutters::cutter::Cutter;
use cutters::pieces::fill::list;
use searchers::substring::Substring;

/// Lists the places between the separators that are cut from the front, as starts and ends in
/// bytes, and gives their number: at most `maxsplit` separators are cut, and a negative `maxsplit`
/// is no bound. Refused where the separator is empty (1), and else where the list has too few
/// entries (7, with the number of places); the list is then as it was.
pub fn split_str<S: AnyStr>(
    text: &S,
    sep: &S,
    maxsplit: i64,
    places: &mut [Place],
) -> Result<usize, Refusal>
    ensures list { Lists (split_of (bytes_of S.AnyStr text.now) (bytes_of S.AnyStr sep.now)
        maxsplit) places.old places.new result }
    ensures rule { OfWritten (SplitFront (bytes_of S.AnyStr text.now) (bytes_of S.AnyStr sep.now)
        maxsplit) places.new result }
    ensures restores { OfWritten (Restore (bytes_of S.AnyStr text.now) (bytes_of S.AnyStr sep.now))
        places.new result }
    ensures cut { OfWritten (Cuttable (S.elements text.now)) places.new result }
{
    Substring::check(sep)?;
    let cutter = Cutter::open(*text, Substring::new(*sep), maxsplit);
    list(cutter.pieces(), places)
}
