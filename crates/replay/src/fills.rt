// Answers that fill a tray.
use super::case::{Join, Maketrans, Replace, Translate};
use super::desk::Desk;
use super::fault::Fault;
use super::kind::Kind;
use anystr::bytes::Bytes;
use anystr::optional::OptionalArg;
use bytesinner::tables::translate::ByteInnerTranslateOptions;
use bytesinner::{join, maketrans, replace, translate};

// What a tray holds is written after this word.
const FILLED: &str = "bytes";

/// Parts of a text with another between them.
pub fn write_join<'a, S: Kind<'a>>(case: &'a Join, desk: &mut Desk) -> Result<(), Fault> {
    desk.fill(FILLED, case.room, |tray| {
        let sep = S::try_from(case.sep.as_slice())?;
        let text = S::try_from(case.text.as_slice())?;
        join(&sep, &text, case.places.as_slice(), tray)
    })
}

/// A text with another in place of a third.
pub fn write_replace<'a, S: Kind<'a>>(case: &'a Replace, desk: &mut Desk) -> Result<(), Fault> {
    desk.fill(FILLED, case.room, |tray| {
        let text = S::try_from(case.text.as_slice())?;
        let from = S::try_from(case.from.as_slice())?;
        let to = S::try_from(case.to.as_slice())?;
        replace(&text, &from, &to, OptionalArg::from(case.maxcount), tray)
    })
}

/// A text translated by a table.
pub fn write_translate(case: &Translate, desk: &mut Desk) -> Result<(), Fault> {
    desk.fill(FILLED, case.room, |tray| {
        let text = Bytes::try_from(case.text.as_slice())?;
        let options = ByteInnerTranslateOptions {
            table: case.table.as_deref(),
            delete: OptionalArg::from(case.delete.as_deref()),
        };
        translate(&text, options, tray)
    })
}

/// A table made from two lists of bytes.
pub fn write_maketrans(case: &Maketrans, desk: &mut Desk) -> Result<(), Fault> {
    desk.fill(FILLED, case.room, |tray| {
        let from = Bytes::try_from(case.from.as_slice())?;
        let to = Bytes::try_from(case.to.as_slice())?;
        maketrans(&from, &to, tray)
    })
}
