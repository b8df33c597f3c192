// Where answers are made: the page, and the memory that methods fill.
use super::fault::Fault;
use super::page::write_bytes;
use anystr::place::Place;
use anystr::refusal::Refusal;
use std::alloc::{AllocError, Global};
use trays::buffer::Buffer;

/// The page that an answer is written on, bytes for a tray and entries for a list of places, all kept from line to
/// line.
#[derive(Drop)]
pub struct Desk {
    pub page: String,
    bytes: Vec<u8>,
    places: Vec<Place>,
}

// The first `room` items of a list that grows where it is shorter.
fn lend<T: Copy + Default>(items: &mut Vec<T>, room: usize) -> Result<&mut [T], AllocError> {
    if items.len() < room {
        items.resize(room, T::default())?;
    }
    Ok(&mut items[..room])
}

impl Desk {
    /// A desk with an empty page.
    pub fn new(heap: Global) -> Desk {
        Desk {
            page: String::new(heap),
            bytes: Vec::new(heap),
            places: Vec::new(heap),
        }
    }

    // Writes a word and what `fill` puts into a tray with so many free bytes.
    pub(super) fn fill<F: FnOnce(&mut Buffer<'_>) -> Result<(), Refusal>>(
        &mut self,
        word: &str,
        room: usize,
        fill: F,
    ) -> Result<(), Fault>
        requires { F.IsAlwaysCallable fill }
    {
        let mut tray = Buffer::new(lend(&mut self.bytes, room)?);
        fill(&mut tray)?;
        Ok(write_bytes(word, tray.as_bytes(), &mut self.page)?)
    }

    // Writes the places that `list` puts into a list of so many, as many as it says.
    pub(super) fn list<F: FnOnce(&mut [Place]) -> Result<usize, Refusal>>(
        &mut self,
        room: usize,
        list: F,
    ) -> Result<(), Fault>
        requires { F.IsAlwaysCallable list }
    {
        let places = lend(&mut self.places, room)?;
        let n = list(places)?;
        write!(self.page, "places {n}")?;
        for place in places.iter().take(n) {
            write!(self.page, " {}-{}", place.start, place.end)?;
        }
        Ok(())
    }
}
