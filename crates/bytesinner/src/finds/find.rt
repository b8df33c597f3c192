// The first and the last place of a needle.
ghost use Rattle.std.specs.Prelude.{◌≡◌};
ghost use Rattle.anystr.specs.Bytes.{byte_list};
ghost use Rattle.anystr.specs.Refusals.{coded};
ghost use Rattle.bytesinner.specs.finds.Asked.{answer_of, Keeps};
ghost use Rattle.bytesinner.specs.finds.Places.{find_of, rfind_of, FirstPlace, LastPlace};

use super::options::ByteInnerFindOptions;
use super::stretch::Stretch;
use anystr::anystr::AnyStr;
use anystr::bytes::Bytes;
use anystr::refusal::Refusal;
use searchers::searcher::{ReverseSearcher, Searcher};
use searchers::substring::Substring;

impl<'a> Stretch<'a> {
    // The first place of the needle.
    fn first_place(&self, needle: Bytes<'_>) -> Option<usize>
        ensures { FirstPlace (byte_list self.now.text) (byte_list needle.entry)
            self.now.range.start self.now.range.end result }
    {
        let part = self.part()?;
        if needle.is_empty() {
            return Some(self.range.start);
        }
        let mark = Substring::new(needle).find(&part, 0)?;
        Some(self.range.start + mark.start)
    }

    // The last place of the needle. Not one function with the first: it asks the searcher from the
    // end, and finds an empty needle there.
    fn last_place(&self, needle: Bytes<'_>) -> Option<usize>
        ensures { LastPlace (byte_list self.now.text) (byte_list needle.entry)
            self.now.range.start self.now.range.end result }
    {
        let part = self.part()?;
        if needle.is_empty() {
            return Some(self.range.end);
        }
        let mark = Substring::new(needle).rfind(&part, part.bytes_len())?;
        Some(self.range.start + mark.start)
    }
}

/// The least offset in the text, in bytes, at which the sub stands, from the start that is meant to
/// the end; none where there is none. Refused where the sub is a number that is no byte (2) or has
/// more bytes than a text may have (6).
pub fn find(text: &Bytes<'_>, options: ByteInnerFindOptions<'_>) -> Result<Option<usize>, Refusal>
    ensures value { coded result ≡ answer_of find_of (byte_list text.now) options.entry }
    ensures law { Keeps FirstPlace (byte_list text.now) options.entry result }
{
    options.ask(text, |stretch, needle| stretch.first_place(needle))
}

/// The greatest offset in the text, in bytes, at which the sub stands, from the start that is meant
/// to the end; none where there is none. Refused where the sub is a number that is no byte (2) or
/// has more bytes than a text may have (6).
pub fn rfind(text: &Bytes<'_>, options: ByteInnerFindOptions<'_>) -> Result<Option<usize>, Refusal>
    ensures value { coded result ≡ answer_of rfind_of (byte_list text.now) options.entry }
    ensures law { Keeps LastPlace (byte_list text.now) options.entry result }
{
    options.ask(text, |stretch, needle| stretch.last_place(needle))
}
