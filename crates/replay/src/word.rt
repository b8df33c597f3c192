// What a word stands for.
use super::fault::Fault;
use std::alloc::Global;

const ABSENT: &[u8; 1] = b"-";

const BASE: u64 = 10;

/// What a word can be read as.
pub trait FromWord: Sized {
    /// What the word says; no case where it says nothing of this type.
    fn from_word(word: &[u8], heap: Global) -> Result<Self, Fault>;
}

// A number with one digit more.
fn with_digit(number: u64, digit: &u8) -> Option<u64> {
    match digit {
        b'0'..=b'9' => number
            .checked_mul(BASE)?
            .checked_add((*digit - b'0') as u64),
        _ => None,
    }
}

// A number without a sign. `parse` takes longer over so few digits, and a plus sign too.
fn natural(word: &[u8]) -> Result<u64, Fault> {
    if word.is_empty() {
        return Err(Fault::NoCase);
    }
    word.iter().try_fold(0, with_digit).ok_or(Fault::NoCase)
}

impl FromWord for u64 {
    fn from_word(word: &[u8], _: Global) -> Result<u64, Fault> {
        natural(word)
    }
}

impl FromWord for usize {
    fn from_word(word: &[u8], _: Global) -> Result<usize, Fault> {
        Ok(natural(word)? as usize)
    }
}

// A sign stands before a negative number alone.
impl FromWord for i64 {
    fn from_word(word: &[u8], _: Global) -> Result<i64, Fault> {
        let number = match word {
            [b'-', digits @ ..] => 0i64.checked_sub_unsigned(natural(digits)?),
            _ => 0i64.checked_add_unsigned(natural(word)?),
        };
        number.ok_or(Fault::NoCase)
    }
}

impl FromWord for bool {
    fn from_word(word: &[u8], _: Global) -> Result<bool, Fault> {
        match word {
            b"0" => Ok(false),
            b"1" => Ok(true),
            _ => Err(Fault::NoCase),
        }
    }
}

// A match: the library's `to_digit` takes capitals too.
fn hex_digit(digit: u8) -> Result<u8, Fault> {
    match digit {
        b'0'..=b'9' => Ok(digit - b'0'),
        b'a'..=b'f' => Ok(digit - b'a' + 10),
        _ => Err(Fault::NoCase),
    }
}

fn byte(digits: &[u8]) -> Result<u8, Fault> {
    let [high, low] = digits else {
        return Err(Fault::NoCase);
    };
    Ok(hex_digit(*high)? << 4 | hex_digit(*low)?)
}

// A byte string: `x` and two hexadecimal digits for each byte.
impl FromWord for Vec<u8> {
    fn from_word(word: &[u8], heap: Global) -> Result<Vec<u8>, Fault> {
        let digits = word.strip_prefix(b"x").ok_or(Fault::NoCase)?;
        // Room for all at once: growing step by step costs half as much as reading.
        let mut bytes = Vec::with_capacity(heap, digits.len() / 2)?;
        for pair in digits.chunks(2) {
            bytes.push(byte(pair)?).map_err(|_| Fault::NoMemory)?;
        }
        Ok(bytes)
    }
}

// What may be absent.
impl<T: FromWord> FromWord for Option<T> {
    fn from_word(word: &[u8], heap: Global) -> Result<Option<T>, Fault> {
        if word == ABSENT.as_slice() {
            return Ok(None);
        }
        Ok(Some(T::from_word(word, heap)?))
    }
}
