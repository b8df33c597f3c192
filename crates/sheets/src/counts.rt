//! How many bytes of a text are in a set.
ghost use Rattle.std.specs.Prelude.{◌≡◌, count_by};
ghost use Rattle.anystr.specs.Texts.{bytes_of};
ghost use Rattle.searchers.specs.bytesets.AsciiSets.{has_ascii};

use searchers::ascii::AsciiStr;
use searchers::bytesets::asciiset::AsciiSet;
use searchers::count::count_marks;

/// The number of bytes of the text that are in the set, however often each stands there.
pub fn count_in<S: AsciiStr>(text: &S, set: &AsciiSet) -> usize
    ensures { result ≡ count_by (has_ascii set.now) (bytes_of S.AnyStr text.now) }
{
    count_marks(set, text)
}
