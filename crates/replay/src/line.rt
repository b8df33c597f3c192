// The words of a line, read one after another.
ghost use Rattle.std.specs.Prelude.{suc, length, Some, None};
ghost use Rattle.std.specs.Iterator.{at_most};

use super::fault::Fault;
use super::word::FromWord;
use anystr::anystr::MAX_BYTES;
use std::alloc::Global;

// The most room that a tray or a list of places is given: a text can have as many pieces.
const MAX_ROOM: usize = MAX_BYTES + 1;

/// The words that are still to be read; there is always a first one, perhaps empty.
#[derive(Drop)]
pub struct Words<'a> {
    rest: Option<&'a [u8]>,
    separator: u8,
    heap: Global,
}

impl<'a> Iterator for Words<'a> {
    type Item = &'a [u8];

    ghost remaining = { λ s. at_most (elim s.rest [ Some r ↦ suc (length r.now) | None ↦ 0 ]) };

    // Byte by byte: most words are too short for a search in larger steps to pay.
    fn next(&mut self) -> Option<&'a [u8]> {
        let rest = self.rest?;
        let separator = self.separator;
        match rest.iter().position(|byte| *byte == separator) {
            Some(end) => {
                self.rest = Some(&rest[end + 1..]);
                Some(&rest[..end])
            }
            None => {
                self.rest = None;
                Some(rest)
            }
        }
    }
}

impl<'a> Words<'a> {
    /// The words of a text between separators.
    pub fn new(text: &'a [u8], separator: u8, heap: Global) -> Words<'a> {
        Words {
            rest: Some(text),
            separator,
            heap,
        }
    }

    /// The next word; no case where there is none.
    pub fn word(&mut self) -> Result<&'a [u8], Fault> {
        self.next().ok_or(Fault::NoCase)
    }

    /// What the next word stands for.
    pub fn read<T: FromWord>(&mut self) -> Result<T, Fault> {
        T::from_word(self.word()?, self.heap)
    }

    /// The room of a tray or a list of places.
    pub fn room(&mut self) -> Result<usize, Fault> {
        let room = self.read()?;
        if room > MAX_ROOM {
            return Err(Fault::NoCase);
        }
        Ok(room)
    }

    /// What the words that are left stand for, one each.
    pub fn rest<T: FromWord + Drop>(&mut self) -> Result<Vec<T>, Fault> {
        let heap = self.heap;
        self.by_ref()
            .map(|word| -> Result<T, Fault> { T::from_word(word, heap) })
            .try_collect(heap)
    }

    /// Ends the reading; a word that is left is one too many.
    pub fn finish(self) -> Result<(), Fault> {
        match self.rest {
            None => Ok(()),
            Some(_) => Err(Fault::NoCase),
        }
    }
}
