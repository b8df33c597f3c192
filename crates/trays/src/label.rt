// A tray of 80 bytes that is held by value.
ghost use Rattle.std.specs.Prelude.{◌≡◌, ◌≤◌, [], length};
ghost use Rattle.trays.specs.Labels.{label_bytes, label_contents};

use super::container::AnyStrContainer;
use super::put::put;
use anystr::anystr::AnyStr;
use anystr::refusal::Refusal;
use std::marker::Model;

/// The bytes of a label.
pub const LABEL_BYTES: usize = 80;

/// A tray of 80 bytes that is held by value. Every byte past those that it holds is zero. In
/// contracts a label is the list of the bytes that it holds.
// A length beside the bytes, and no `Vec`: a label is held by value.
#[derive(Drop)]
pub struct Label {
    bytes: [u8; LABEL_BYTES],
    len: usize,
}

impl Model for Label {
    ghost use Rattle.std.specs.Prelude.{◌≡◌, ℕ, ◌≤◌, List, take, drop};
    ghost use Rattle.trays.specs.Labels.{label_bytes, zeros_past};

    ghost Value = { List ℕ };

    ghost view = { λ l. take l.len l.bytes };

    ghost invariant = { λ l. (l.len ≤ label_bytes) × (drop l.len l.bytes ≡ zeros_past l.len) };
}

impl Label {
    /// An empty label, with all its 80 bytes free.
    pub fn new() -> Label
        ensures { result ≡ [] }
    {
        Label {
            bytes: [0; LABEL_BYTES],
            len: 0,
        }
    }

    /// The bytes that it holds, at most `LABEL_BYTES`.
    pub fn as_bytes(&self) -> &[u8]
        ensures held { result.now ≡ self.now }
        ensures few { length self.now ≤ label_bytes }
    {
        &self.bytes[..self.len]
    }
}

impl AnyStrContainer for Label {
    ghost contents = { label_contents };

    ghost loan = { λ _. 0 };

    fn free(&self) -> usize {
        LABEL_BYTES - self.len
    }

    fn push_str<S: AnyStr>(&mut self, text: &S) -> Result<(), Refusal> {
        self.len = put(&mut self.bytes, self.len, text.as_bytes())?;
        Ok(())
    }
}
