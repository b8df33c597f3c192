// Answers that are lists of places.
use super::case::{End, Split, SplitLines};
use super::desk::Desk;
use super::fault::Fault;
use super::kind::Kind;
use bytesinner::splitargs::SplitArgs;
use bytesinner::{rsplit, split, splitlines};

/// The pieces of a text, cut from one of its ends.
pub fn write_split<'a, S: Kind<'a>>(case: &'a Split, desk: &mut Desk) -> Result<(), Fault> {
    desk.list(case.room, |places| {
        let text = S::try_from(case.text.as_slice())?;
        // A match: `as_deref().map(S::try_from)` passes a function whose result names the kind, which no proof covers.
        let sep = match &case.sep {
            Some(sep) => Some(S::try_from(sep.as_slice())?),
            None => None,
        };
        let args = SplitArgs {
            sep,
            maxsplit: case.maxsplit,
        };
        // A match: no proof covers a closure round a call that is a generic parameter and takes a text of the kind.
        match case.end {
            End::Front => split(&text, args, places),
            End::Back => rsplit(&text, args, places),
        }
    })
}

/// The lines of a text.
pub fn write_splitlines<'a, S: Kind<'a>>(
    case: &'a SplitLines,
    desk: &mut Desk,
) -> Result<(), Fault> {
    desk.list(case.room, |places| {
        let text = S::try_from(case.text.as_slice())?;
        splitlines(&text, case.args, places)
    })
}
