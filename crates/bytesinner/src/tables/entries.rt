// What becomes of each byte when some are deleted and the others mapped.
ghost use Rattle.std.specs.Prelude.{◌≡◌, ℕ, ◌+◌, ◌<◌, ◌≤◌, if◌then◌else◌, length, take};
ghost use Rattle.std.specs.Prelude.{slice_index, slice_set};
ghost use Rattle.bytesinner.specs.tables.Tables.{byte_values};
ghost use Rattle.bytesinner.specs.tables.Entries.{AreEntries, image_in, is_gone_in, images_in};

use searchers::bytesets::byteset::BYTE_VALUES;

// What an entry has more than the image where the byte stays.
const STAYS: u16 = BYTE_VALUES as u16;

// An entry for each byte: its image, and `STAYS` more where the byte stays. One look-up tells both.
#[derive(Drop)]
pub(super) struct Entries {
    cells: [u16; BYTE_VALUES],
    ghost small: { AreEntries cells },
}

impl Entries {
    // Each byte stays, with the table's image.
    pub(super) fn new(table: &[u8; BYTE_VALUES]) -> Entries
        ensures { (b : ℕ) → b < byte_values
            → slice_index result.cells b ≡ byte_values + slice_index table.now b }
    {
        let mut cells = [0; BYTE_VALUES];
        for (b, image) in table.iter().enumerate() {
            cells[b] = STAYS + u16::from(*image);
        }
        Entries { cells }
    }

    // The byte goes.
    pub(super) fn delete(&mut self, byte: u8)
        ensures { self.new.cells ≡ slice_set self.old.cells byte 0 }
    {
        self.cells[byte as usize] = 0;
    }

    // The byte's image, and how many bytes come of it: 1, or 0 where it goes.
    fn get(&self, byte: u8) -> (u8, usize)
        ensures image { result.0 ≡ image_in self.now.cells byte }
        ensures count { result.1 ≡ (if is_gone_in self.now.cells byte then 0 else 1) }
    {
        let entry = self.cells[byte as usize];
        ((entry % STAYS) as u8, usize::from(entry / STAYS))
    }

    // How many of the bytes stay.
    pub(super) fn kept_len(&self, bytes: &[u8]) -> usize
        ensures { result ≡ length (images_in self.now.cells bytes.now) }
    {
        let mut kept = 0;
        for b in bytes {
            let (_, count) = self.get(*b);
            kept += count;
        }
        kept
    }

    // Writes the images of the bytes that stay in front; how many stay.
    pub(super) fn map_kept(&self, bytes: &[u8], images: &mut [u8]) -> usize
        requires { length bytes.now ≤ length images.old }
        ensures within { result ≤ length bytes.now }
        ensures written { take result images.new ≡ images_in self.now.cells bytes.now }
    {
        let mut kept = 0;
        for b in bytes {
            // without a branch: the image of a byte that goes is written over by the next
            let (image, count) = self.get(*b);
            images[kept] = image;
            kept += count;
        }
        kept
    }
}
