// The calls that can be measured.

/// A call over a whole sheet, with its arguments.
#[derive(Clone, Copy)]
pub enum Call<'a> {
    /// split at the separator, or at whitespace where there is none
    Split(Option<&'a [u8]>),
    Rsplit(Option<&'a [u8]>),
    /// splitlines without line ends
    Splitlines,
    Find(&'a [u8]),
    Rfind(&'a [u8]),
    Count(&'a [u8]),
    /// replace without a bound
    Replace { from: &'a [u8], to: &'a [u8] },
    /// translate by the table that takes each byte from 255
    Translate { delete: &'a [u8] },
    /// join of all parts between the separators
    Join { sep: &'a [u8], with: &'a [u8] },
    /// splitlines, and on each line split at `,`, find of the word, and replace of `,` by `;`
    Script { word: &'a [u8] },
}

impl<'a> Call<'a> {
    /// The call that a row names: a method and its arguments, with a blank before each. None where it names none.
    pub fn read(row: &'a str) -> Option<Call<'a>> {
        let mut words = row.split(' ');
        let name = words.next()?;
        let first = words.next().map(str::as_bytes);
        let second = words.next().map(str::as_bytes);
        if words.next().is_some() {
            return None;
        }
        match (name, first, second) {
            ("split", sep, None) => Some(Call::Split(sep)),
            ("rsplit", sep, None) => Some(Call::Rsplit(sep)),
            ("splitlines", None, None) => Some(Call::Splitlines),
            ("find", Some(sub), None) => Some(Call::Find(sub)),
            ("rfind", Some(sub), None) => Some(Call::Rfind(sub)),
            ("count", Some(sub), None) => Some(Call::Count(sub)),
            ("replace", Some(from), Some(to)) => Some(Call::Replace { from, to }),
            ("translate", delete, None) => Some(Call::Translate {
                delete: delete.unwrap_or(b""),
            }),
            ("join", Some(sep), Some(with)) => Some(Call::Join { sep, with }),
            ("script", Some(word), None) => Some(Call::Script { word }),
            _ => None,
        }
    }
}
