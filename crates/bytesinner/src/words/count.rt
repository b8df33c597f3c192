// The number of the words of a text, without their places.
ghost use Rattle.std.specs.Prelude.{◌≡◌, ◌≤◌, length};
ghost use Rattle.bytesinner.specs.words.Words.{runs};
ghost use Rattle.bytesinner.specs.words.Starts.{starts, ends_space};

use super::runs::is_space;

// As many bytes are gone over at a time: their words can be counted in a byte each, and so many at
// once.
const BATCH: usize = 128;

// How many words begin in a batch, and whether whitespace stands at its end; `behind` says whether
// it stands behind whitespace or at the start of the text.
fn starts_in(batch: &[u8], behind: bool) -> (u8, bool)
    requires { length batch.now ≤ 128 }
    ensures words { result.0 ≡ starts behind batch.now }
    ensures last { result.1 ≡ ends_space behind batch.now }
{
    let mut words = 0u8;
    let mut at_space = behind;
    for byte in batch {
        let space = is_space(*byte);
        words += u8::from(at_space & !space);
        at_space = space;
    }
    (words, at_space)
}

// How many words the bytes have.
pub(super) fn count_words(bytes: &[u8]) -> usize
    ensures { result ≡ length (runs bytes.now) }
{
    let mut total = 0;
    let mut behind = true;
    let mut rest = bytes;
    while !rest.is_empty() {
        let (batch, later) = rest.split_at(rest.len().min(BATCH));
        let (words, at_space) = starts_in(batch, behind);
        total += words as usize;
        behind = at_space;
        rest = later;
    }
    total
}
