// Where calls are done: the memory that they fill, lent anew at each turn.
use super::answer::answer;
use super::call::Call;
use super::trouble::Trouble;
use anystr::bytes::Bytes;
use anystr::place::Place;
use anystr::refusal::Refusal;
use searchers::bytesets::byteset::BYTE_VALUES;
use std::alloc::Global;
use std::array;

/// The memory of one call.
#[derive(Drop)]
pub struct Desk {
    /// what the call lists, or joins
    pub places: Vec<Place>,
    /// what the script lists of a line
    pub fields: Vec<Place>,
    /// what the call makes
    pub bytes: Vec<u8>,
    /// what translate maps each byte to
    pub table: [u8; BYTE_VALUES],
}

// What the whole takes, by a call's answer where it had no room.
fn room(answer: Result<usize, Refusal>) -> Result<usize, Refusal> {
    match answer {
        Err(Refusal::TooSmall { needed }) => Ok(needed as usize),
        answer => answer,
    }
}

// The length of the longest stretch.
fn longest(places: &[Place]) -> usize {
    let mut most = 0;
    for place in places {
        most = most.max(place.end.saturating_sub(place.start));
    }
    most
}

impl Desk {
    fn empty(heap: Global) -> Desk {
        Desk {
            places: Vec::new(heap),
            fields: Vec::new(heap),
            bytes: Vec::new(heap),
            table: array::from_fn(|byte| 255 - byte as u8),
        }
    }

    // Lists the places that a call gives.
    fn list(&mut self, call: Call<'_>, sheet: &Bytes<'_>) -> Result<(), Trouble> {
        let n = room(answer(call, sheet, self))?;
        self.places.resize(n, Place::default())?;
        answer(call, sheet, self)?;
        Ok(())
    }

    // Makes room for the bytes that a call makes.
    fn make_room(&mut self, call: Call<'_>, sheet: &Bytes<'_>) -> Result<(), Trouble> {
        let n = room(answer(call, sheet, self))?;
        Ok(self.bytes.resize(n, 0)?)
    }

    /// A desk with the memory that the call takes.
    pub fn new(heap: Global, call: Call<'_>, sheet: &Bytes<'_>) -> Result<Desk, Trouble> {
        let mut desk = Desk::empty(heap);
        match call {
            Call::Split(_) | Call::Rsplit(_) | Call::Splitlines => desk.list(call, sheet)?,
            Call::Find(_) | Call::Rfind(_) | Call::Count(_) => {}
            Call::Replace { .. } | Call::Translate { .. } => desk.make_room(call, sheet)?,
            Call::Join { sep, .. } => {
                desk.list(Call::Split(Some(sep)), sheet)?;
                desk.make_room(call, sheet)?;
            }
            Call::Script { .. } => {
                desk.list(Call::Splitlines, sheet)?;
                let n = longest(desk.places.as_slice());
                desk.fields.resize(n.saturating_add(1), Place::default())?;
                desk.bytes.resize(n, 0)?;
            }
        }
        Ok(desk)
    }

    /// A number that rests on a call's answer, and on the last place and the last byte that it wrote.
    pub fn trace(&self, answer: usize) -> usize {
        let last = answer.wrapping_sub(1);
        let end = match self.places.get(last) {
            Some(place) => place.end,
            None => 0,
        };
        let byte = match self.bytes.get(last) {
            Some(byte) => usize::from(*byte),
            None => 0,
        };
        answer.wrapping_add(end).wrapping_add(byte)
    }
}
