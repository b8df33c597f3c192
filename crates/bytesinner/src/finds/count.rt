// The number of a needle's occurrences.
ghost use Rattle.std.specs.Prelude.{◌≡◌};
ghost use Rattle.anystr.specs.Bytes.{byte_list};
ghost use Rattle.anystr.specs.Refusals.{coded};
ghost use Rattle.bytesinner.specs.finds.Asked.{answer_of, Keeps};
ghost use Rattle.bytesinner.specs.finds.Counts.{count_of, Number};

use super::options::ByteInnerFindOptions;
use super::stretch::Stretch;
use anystr::anystr::AnyStr;
use anystr::bytes::Bytes;
use anystr::refusal::Refusal;
use searchers::count::count_marks;
use searchers::substring::Substring;

impl<'a> Stretch<'a> {
    // How often the needle is cut from the front; an empty one stands at each offset.
    fn times(&self, needle: Bytes<'_>) -> usize
        ensures { result ≡ count_of (byte_list self.now.text) (byte_list needle.entry)
            self.now.range.start self.now.range.end }
    {
        let Some(part) = self.part() else {
            return 0;
        };
        if needle.is_empty() {
            return part.bytes_len() + 1;
        }
        count_marks(&Substring::new(needle), &part)
    }
}

/// How often the sub stands in the text without overlap, counted from the front, from the start
/// that is meant to the end; an empty one stands at each offset. Refused where the sub is a number
/// that is no byte (2) or has more bytes than a text may have (6).
pub fn count(text: &Bytes<'_>, options: ByteInnerFindOptions<'_>) -> Result<usize, Refusal>
    ensures value { coded result ≡ answer_of count_of (byte_list text.now) options.entry }
    ensures law { Keeps Number (byte_list text.now) options.entry result }
{
    options.ask(text, |stretch, needle| stretch.times(needle))
}
