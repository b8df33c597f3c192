// What is looked for, and where.
ghost use Rattle.std.specs.Prelude.{◌≡◌, Err, IfOk, IfErr};
ghost use Rattle.anystr.specs.Bytes.{byte_list};
ghost use Rattle.anystr.specs.Refusals.{code, coded};
ghost use Rattle.bytesinner.specs.finds.Asked.{byte_of, sub_of, answer_in, target, Meant};
ghost use Rattle.bytesinner.specs.finds.Asked.{needle_bytes, coded_target};

use super::either::Either;
use super::stretch::Stretch;
use anystr::anystr::AnyStr;
use anystr::bytes::Bytes;
use anystr::indices::adjust_indices;
use anystr::refusal::Refusal;
use std::ops::Range;

/// What find, rfind and count are asked for, and where. Offsets are in bytes, and counted from the
/// text's end where they are negative.
#[derive(Clone, Copy)]
pub struct ByteInnerFindOptions<'a> {
    /// a byte string, or a number that is a byte
    pub sub: Either<&'a [u8], i64>,
    /// the least offset at which it may stand; left out, 0
    pub start: Option<i64>,
    /// the offset past which it may not reach; left out, the text's end
    pub end: Option<i64>,
}

/// What a sub means: a byte string, or the byte of a number.
// Not an `Either` of a text and a byte: an enum that holds a reference cannot hold a `Bytes`.
#[derive(Clone, Copy)]
pub enum Needle<'a> {
    /// a byte string
    Bytes(&'a [u8]),
    /// one byte
    Byte([u8; 1]),
}

/// The byte that a number is; refused where it is no byte (2).
pub fn byte_or(number: i64) -> Result<u8, Refusal>
    ensures { coded result ≡ byte_of number }
{
    u8::try_from(number).map_err(|_| Refusal::NotByte)
}

impl<'a> Needle<'a> {
    /// The bytes that are looked for.
    pub fn as_bytes<'b>(&'b self) -> &'b [u8]
    where
        'a: 'b,
        ensures { result.now ≡ needle_bytes self.now }
    {
        match self {
            Needle::Bytes(bytes) => bytes,
            Needle::Byte(byte) => byte,
        }
    }
}

impl<'a> ByteInnerFindOptions<'a> {
    /// The needle and the offsets that are meant in `len` bytes; refused where the sub is a number
    /// that is no byte (2) or has more bytes than a text may have (6).
    pub fn get_value(self, len: usize) -> Result<(Needle<'a>, Range<usize>), Refusal>
        ensures { coded_target result ≡ answer_in target self.entry len }
    {
        let needle = match self.sub {
            Either::A(bytes) => {
                Bytes::check(bytes)?;
                Needle::Bytes(bytes)
            }
            Either::B(number) => Needle::Byte([byte_or(number)?]),
        };
        Ok((needle, adjust_indices(self.start, self.end, len)))
    }

    // What `search` answers for the stretch and the needle that are meant in the text; refused
    // where the sub is no byte or too long.
    pub(super) fn ask<R, F: FnOnce(Stretch<'_>, Bytes<'_>) -> R>(
        self,
        text: &Bytes<'_>,
        search: F,
    ) -> Result<R, Refusal>
        requires { F.IsAlwaysCallable search }
        ensures answer { IfOk result (λ x. (stretch : _) × (needle : _)
            × Meant self.entry text.now stretch (byte_list needle)
            × F.post search stretch needle x) }
        ensures refused { IfErr result (λ e. sub_of self.entry.sub ≡ Err (code e)) }
    {
        let (needle, range) = self.get_value(text.bytes_len())?;
        let stretch = Stretch { text: *text, range };
        Ok(search(stretch, Bytes::new(needle.as_bytes())))
    }
}
