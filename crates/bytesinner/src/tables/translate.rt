// Texts translated by a table.
ghost use Rattle.std.specs.Prelude.{◌≡◌, ◌≤◌, false, [], length, map, slice_index};
ghost use Rattle.std.specs.Prelude.{None, Ok, MatchResult};
ghost use Rattle.anystr.specs.Bytes.{byte_list};
ghost use Rattle.anystr.specs.Refusals.{code, PassesIf};
ghost use Rattle.trays.specs.Trays.{Fills};
ghost use Rattle.bytesinner.specs.tables.Tables.{Appends};
ghost use Rattle.bytesinner.specs.tables.Entries.{images_in};
ghost use Rattle.bytesinner.specs.tables.Translations.{is_full, table_in, delete_in};
ghost use Rattle.bytesinner.specs.tables.Translations.{translate_of, Meant, InPlace, Without};

use super::entries::Entries;
use super::identity::identity;
use anystr::anystr::AnyStr;
use anystr::bytes::Bytes;
use anystr::optional::OptionalArg;
use anystr::refusal::Refusal;
use searchers::bytesets::byteset::BYTE_VALUES;
use trays::container::AnyStrContainer;

/// What a text is translated by: a table of 256 bytes, and the bytes to delete. Either may be left
/// out.
#[derive(Clone, Copy)]
pub struct ByteInnerTranslateOptions<'a> {
    /// the image of each byte; left out, each byte is its own
    pub table: Option<&'a [u8]>,
    /// left out, no byte is deleted
    pub delete: OptionalArg<&'a [u8]>,
}

impl<'a> ByteInnerTranslateOptions<'a> {
    // The table and the bytes to delete that are meant; refused where a table has not exactly 256
    // bytes.
    fn get_value(self) -> Result<([u8; BYTE_VALUES], &'a [u8]), Refusal>
        ensures { MatchResult result (λ v. Meant self.entry v.0 v.1.now)
            (λ e. (is_full (table_in self.entry) ≡ false) × (code e ≡ (4, 0))) }
    {
        let table = match self.table {
            Some(bytes) => bytes.try_into().map_err(|_| Refusal::BadTable)?,
            None => identity(),
        };
        let delete = match self.delete {
            OptionalArg::Present(bytes) => bytes,
            OptionalArg::Missing => &[],
        };
        Ok((table, delete))
    }
}

// Whether that many bytes are free.
fn check_room<T: AnyStrContainer>(needed: usize, tray: &T) -> Result<(), Refusal>
    ensures { PassesIf (needed ≤ length (T.contents tray.now).spare) (7, needed) result }
{
    if needed > tray.free() {
        return Err(Refusal::TooSmall {
            needed: needed as u64,
        });
    }
    Ok(())
}

// Whether as many bytes are free as stay.
fn check_kept<T: AnyStrContainer>(bytes: &[u8], entries: &Entries, tray: &T) -> Result<(), Refusal>
    ensures { PassesIf
        (length (images_in entries.now.cells bytes.now) ≤ length (T.contents tray.now).spare)
        (7, length (images_in entries.now.cells bytes.now)) result }
{
    // where all would fit, none are counted
    if bytes.len() <= tray.free() {
        return Ok(());
    }
    check_room(entries.kept_len(bytes), tray)
}

// Maps each byte, in its place.
fn map_each(bytes: &mut [u8], table: &[u8; BYTE_VALUES])
    ensures { bytes.new ≡ map (slice_index table.now) bytes.old }
{
    for b in bytes.iter_mut() {
        *b = table[*b as usize];
    }
}

// How many bytes are mapped with no test between them.
const WORD: usize = 8;

// The same, word by word. It is called on a batch at most, so it does not go deep.
fn map_words(bytes: &mut [u8], table: &[u8; BYTE_VALUES])
    ensures { bytes.new ≡ map (slice_index table.now) bytes.old }
{
    if bytes.len() < WORD {
        return map_each(bytes, table);
    }
    let (word, rest) = bytes.split_at_mut(WORD);
    map_each(word, table);
    map_words(rest, table);
}

// The most bytes that are mapped before they are pushed as one text.
const BATCH: usize = 512;

// Appends all of the bytes as the table maps them; refused where fewer are free.
fn push_all<T: AnyStrContainer>(
    bytes: &[u8],
    table: &[u8; BYTE_VALUES],
    tray: &mut T,
) -> Result<(), Refusal>
    ensures fills { Fills T.contents (Ok (map (slice_index table.now) bytes.now))
        tray.old tray.new result }
    ensures same_loan { T.loan tray.new ≡ T.loan tray.old }
{
    check_room(bytes.len(), tray)?;
    // there is room for all of them, so that no push is refused
    let mut batch = [0; BATCH];
    for part in bytes.chunks(BATCH) {
        let images = &mut batch[..part.len()];
        images.copy_from_slice(part);
        map_words(images, table);
        let _ = tray.push_str(&Bytes::new(images));
    }
    Ok(())
}

// Appends the images of those of the bytes that stay; refused where fewer are free.
fn push_kept<T: AnyStrContainer>(
    bytes: &[u8],
    entries: &Entries,
    tray: &mut T,
) -> Result<(), Refusal>
    ensures fills { Fills T.contents (Ok (images_in entries.now.cells bytes.now))
        tray.old tray.new result }
    ensures same_loan { T.loan tray.new ≡ T.loan tray.old }
{
    check_kept(bytes, entries, tray)?;
    // there is room for all that stay, so that no push is refused
    let mut batch = [0; BATCH];
    for part in bytes.chunks(BATCH) {
        let kept = entries.map_kept(part, &mut batch);
        let _ = tray.push_str(&Bytes::new(&batch[..kept]));
    }
    Ok(())
}

/// Appends the text without the bytes to delete, each other byte as the table maps it. Refused, and
/// the tray is as it was, where the table has not exactly 256 bytes (4), and else where fewer bytes
/// are free than stay (7, with the number of those that stay).
pub fn translate<T: AnyStrContainer>(
    text: &Bytes<'_>,
    options: ByteInnerTranslateOptions<'_>,
    tray: &mut T,
) -> Result<(), Refusal>
    ensures fills { Fills T.contents (translate_of options.entry (byte_list text.now))
        tray.old tray.new result }
    ensures same_loan { T.loan tray.new ≡ T.loan tray.old }
    ensures place { delete_in options.entry ≡ [] →
        Appends T.contents tray.old tray.new (InPlace options.entry (byte_list text.now)) result }
    ensures gone { table_in options.entry ≡ None →
        Appends T.contents tray.old tray.new (Without options.entry (byte_list text.now)) result }
{
    let (table, delete) = options.get_value()?;
    let bytes = text.as_bytes();
    // no byte is looked up in a list of none
    if delete.is_empty() {
        return push_all(bytes, &table, tray);
    }
    // the list is gone over once, and not for each byte of the text
    let mut entries = Entries::new(&table);
    for d in delete {
        entries.delete(*d);
    }
    push_kept(bytes, &entries, tray)
}
