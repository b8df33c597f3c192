// A tray of one of several types.
ghost use Rattle.trays.specs.AnyTrays.{any_contents, any_loan};

use super::buffer::Buffer;
use super::container::AnyStrContainer;
use super::label::Label;
use anystr::anystr::AnyStr;
use anystr::refusal::Refusal;

/// A tray of one of the two types, so that a list can have trays of both.
#[derive(Drop)]
pub enum AnyTray<'a> {
    /// over a slice that is lent
    Lent(Buffer<'a>),
    /// by value
    Own(Label),
}

impl<'a> AnyStrContainer for AnyTray<'a> {
    ghost contents = { any_contents };

    ghost loan = { any_loan };

    fn free(&self) -> usize {
        match self {
            AnyTray::Lent(buffer) => buffer.free(),
            AnyTray::Own(label) => label.free(),
        }
    }

    fn push_str<S: AnyStr>(&mut self, text: &S) -> Result<(), Refusal> {
        match self {
            AnyTray::Lent(buffer) => buffer.push_str(text),
            AnyTray::Own(label) => label.push_str(text),
        }
    }
}
