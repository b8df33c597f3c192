// A tray over a slice that the caller lends.
ghost use Rattle.std.specs.Prelude.{◌≡◌, ◌≤◌, length};
ghost use Rattle.trays.specs.Trays.{empty_tray, whole_tray};

use super::container::AnyStrContainer;
use super::put::put;
use anystr::anystr::AnyStr;
use anystr::refusal::Refusal;

/// A tray over a slice that the caller lends. What it holds stands first in the slice, and the
/// bytes past that are as the caller left them.
// A length beside the slice, and no `Vec`: the room is the caller's, and there is no heap.
#[derive(Drop)]
pub struct Buffer<'a> {
    bytes: &'a mut [u8],
    len: usize,
    ghost fits: { len ≤ length bytes.now },
}

impl<'a> Buffer<'a> {
    ghost use Rattle.trays.specs.Buffers.{buffer_contents, buffer_loan};

    /// An empty tray with every byte of the slice free.
    pub fn new(bytes: &'a mut [u8]) -> Buffer<'a>
        ensures empty { buffer_contents result ≡ empty_tray bytes.old }
        ensures same_loan { buffer_loan result ≡ bytes.entry.ghost_name }
    {
        Buffer { bytes, len: 0 }
    }

    /// The bytes that it holds.
    pub fn as_bytes(&self) -> &[u8]
        ensures { result.now ≡ (buffer_contents self.now).held }
    {
        &self.bytes[..self.len]
    }

    /// The slice, given back: the bytes held, and then those past them.
    pub fn finish(self) -> &'a mut [u8]
        ensures whole { result.now ≡ whole_tray (buffer_contents self.entry) }
        ensures same_loan { result.ghost_name ≡ buffer_loan self.entry }
    {
        let Buffer { bytes, len: _ } = self;
        bytes
    }
}

impl<'a> AnyStrContainer for Buffer<'a> {
    ghost use Rattle.trays.specs.Buffers.{buffer_contents, buffer_loan};

    ghost contents = { buffer_contents };

    ghost loan = { buffer_loan };

    fn free(&self) -> usize {
        self.bytes.len() - self.len
    }

    fn push_str<S: AnyStr>(&mut self, text: &S) -> Result<(), Refusal> {
        self.len = put(self.bytes, self.len, text.as_bytes())?;
        Ok(())
    }
}
