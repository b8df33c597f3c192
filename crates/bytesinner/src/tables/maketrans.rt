// How a table is made from two lists of bytes.
ghost use Rattle.std.specs.Prelude.{◌≡◌};
ghost use Rattle.anystr.specs.Bytes.{byte_list};
ghost use Rattle.trays.specs.Trays.{Fills};
ghost use Rattle.bytesinner.specs.tables.Tables.{Appends};
ghost use Rattle.bytesinner.specs.tables.Maketrans.{maketrans_of, MapsFirst};

use super::identity::identity;
use anystr::anystr::AnyStr;
use anystr::bytes::Bytes;
use anystr::refusal::Refusal;
use trays::container::AnyStrContainer;

/// Appends the table of 256 bytes that maps each byte of `from` to its partner in `to` at its first
/// position in `from`, and every other byte to itself. Refused, and the tray is as it was, where
/// the lists have unequal lengths (3), and else where fewer than 256 bytes are free (7, with 256).
pub fn maketrans<T: AnyStrContainer>(
    from: &Bytes<'_>,
    to: &Bytes<'_>,
    tray: &mut T,
) -> Result<(), Refusal>
    ensures fills { Fills T.contents (maketrans_of (byte_list from.now) (byte_list to.now))
        tray.old tray.new result }
    ensures same_loan { T.loan tray.new ≡ T.loan tray.old }
    ensures first { Appends T.contents tray.old tray.new
        (MapsFirst (byte_list from.now) (byte_list to.now)) result }
{
    let keys = from.as_bytes();
    let values = to.as_bytes();
    if keys.len() != values.len() {
        return Err(Refusal::UnequalLengths);
    }
    let mut table = identity();
    // the first position of a byte is written last
    for (key, value) in keys.iter().rev().zip(values.iter().rev()) {
        table[*key as usize] = *value;
    }
    tray.push_str(&Bytes::new(&table))
}
