// Bytes written behind those that a tray holds.
ghost use Rattle.std.specs.Prelude.{◌≤◌, length};
ghost use Rattle.trays.specs.Trays.{Puts};

use anystr::refusal::Refusal;

// Writes `new` behind the first `len` of the bytes, and gives how many are held then; refused, and
// nothing changes, where fewer are free.
pub(super) fn put(bytes: &mut [u8], len: usize, new: &[u8]) -> Result<usize, Refusal>
    requires { len ≤ length bytes.old }
    ensures { Puts new.now len bytes.old bytes.new result }
{
    let n = new.len();
    if n > bytes.len() - len {
        return Err(Refusal::TooSmall { needed: n as u64 });
    }
    let end = len + n;
    bytes[len..end].copy_from_slice(new);
    Ok(end)
}
