// Lines: texts split at line ends.

ghost use Rattle.std.specs.Prelude.{Ok};
ghost use Rattle.anystr.specs.Places.{Lists};
ghost use Rattle.anystr.specs.Texts.{bytes_of};
ghost use Rattle.bytesinner.specs.Written.{OfWritten, Cuttable};
ghost use Rattle.bytesinner.specs.lines.Lines.{lines_of, LinesLaw};

use anystr::place::Place;
use anystr::refusal::Refusal;
use cutters::pieces::fill::list;
use searchers::ascii::AsciiStr;
use searchers::lineends::LineEnds;

mod reader;

use reader::Lines;

/// How `splitlines` gives the lines.
#[derive(Clone, Copy)]
pub struct SplitLinesArgs {
    /// whether each line has its end, by the Rust crate's name
    pub keepends: bool,
}

/// Lists the lines of a text, as starts and ends in bytes that can be cut out of it, and gives
/// their number; a line end at the end of the text begins no further line. Refused where the list
/// has too few entries (7, with the number of lines), and then the list is as it was.
pub fn splitlines<S: AsciiStr>(
    text: &S,
    args: SplitLinesArgs,
    places: &mut [Place],
) -> Result<usize, Refusal>
    ensures value { Lists (Ok (lines_of (bytes_of S.AnyStr text.now) args.keepends))
        places.old places.new result }
    ensures law { LinesLaw (bytes_of S.AnyStr text.now) }
    ensures cut { OfWritten (Cuttable (S.elements text.now)) places.new result }
{
    text.ascii_apart();
    list(Lines::new(*text, LineEnds, args.keepends), places)
}
