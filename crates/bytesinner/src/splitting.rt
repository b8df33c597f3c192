// Splitting at a separator or at whitespace.
ghost use Rattle.anystr.specs.Places.{Lists};
ghost use Rattle.anystr.specs.Texts.{bytes_of};
ghost use Rattle.bytesinner.specs.Splitting.{sep_of, splits_of, rsplits_of, SplitLaw, RsplitLaw};

use super::splitargs::SplitArgs;
use crate::splits::rsplit::rsplit_str;
use crate::splits::split::split_str;
use crate::words::split::{rsplit_whitespace, split_whitespace};
use anystr::anystr::AnyStr;
use anystr::place::Place;
use anystr::refusal::Refusal;

/// Lists the places that a text is split into from the front, as starts and ends in bytes, and
/// gives their number. Refused where the separator is empty (1), and else where the list has too
/// few entries (7, with the number of places); the list is then as it was.
pub fn split<S: AnyStr>(
    text: &S,
    args: SplitArgs<S>,
    places: &mut [Place],
) -> Result<usize, Refusal>
    ensures list { Lists (splits_of (bytes_of S.AnyStr text.now) (sep_of S.AnyStr args)
        args.maxsplit) places.old places.new result }
    ensures law { SplitLaw (S.elements text.now) (sep_of S.AnyStr args) args.maxsplit
        places.new result }
{
    match args.sep {
        Some(sep) => split_str(text, &sep, args.maxsplit, places),
        None => split_whitespace(text, args.maxsplit, places),
    }
}

/// Lists the places that a text is split into from the end, in the order of the text, as starts and
/// ends in bytes, and gives their number. Refused where the separator is empty (1), and else where
/// the list has too few entries (7, with the number of places); the list is then as it was.
// As `split`, by its own two calls; a function over both calls would be longer than the two.
pub fn rsplit<S: AnyStr>(
    text: &S,
    args: SplitArgs<S>,
    places: &mut [Place],
) -> Result<usize, Refusal>
    ensures list { Lists (rsplits_of (bytes_of S.AnyStr text.now) (sep_of S.AnyStr args)
        args.maxsplit) places.old places.new result }
    ensures law { RsplitLaw (S.elements text.now) (sep_of S.AnyStr args) args.maxsplit
        places.new result }
{
    match args.sep {
        Some(sep) => rsplit_str(text, &sep, args.maxsplit, places),
        None => rsplit_whitespace(text, args.maxsplit, places),
    }
}
