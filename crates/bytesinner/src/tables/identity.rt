// The table that changes nothing.
ghost use Rattle.std.specs.Prelude.{◌≡◌, ℕ, ◌<◌, slice_index};
ghost use Rattle.bytesinner.specs.tables.Tables.{byte_values};

use searchers::bytesets::byteset::BYTE_VALUES;
use std::array;

// The table that maps each byte to itself.
pub(super) fn identity() -> [u8; BYTE_VALUES]
    ensures { (b : ℕ) → b < byte_values → slice_index result b ≡ b }
{
    array::from_fn(|b| b as u8)
}
