// The interface of trays.
ghost use Rattle.std.specs.Prelude.{◌≡◌, ℕ, length, Ok};
ghost use Rattle.anystr.specs.Texts.{bytes_of};
ghost use Rattle.trays.specs.Trays.{Contents, Fills};

use anystr::anystr::AnyStr;
use anystr::refusal::Refusal;

/// A tray: what bytes are appended to. It holds bytes, and past them it has spare bytes, of which
/// as many are free. Whoever adds a tray shows what it holds and has spare (`contents`), what loan
/// it writes into (`loan`), and the two calls.
pub trait AnyStrContainer {
    // the bytes that it holds, and those past them
    ghost contents: { Self → Contents };

    // the loan of a caller's memory that it writes into, by its ghost name; of a tray that owns its
    // bytes any number
    ghost loan: { Self → ℕ };

    /// The number of free bytes.
    fn free(&self) -> usize
        ensures { result ≡ length (contents self.now).spare };

    /// Appends all of a text, of any kind. Where it has more bytes than are free it is refused (7,
    /// with the text's length), and nothing changes.
    fn push_str<S: AnyStr>(&mut self, text: &S) -> Result<(), Refusal>
        ensures fills { Fills contents (Ok (bytes_of S.AnyStr text.now))
            self.old self.new result }
        ensures same_loan { loan self.new ≡ loan self.old };
}
