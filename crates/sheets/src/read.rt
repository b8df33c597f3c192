//! Words in which bytes are spelled out, as they are read: what `add_text` shows is read back.
ghost use Rattle.std.specs.Prelude.{◌≡◌, ◌≤◌, ◌+◌, ◌⊎◌, length, IfOk, IfErr, Ok, Err};
ghost use Rattle.sheets.specs.Escapes.{digit, hex_escape, escape, named_at, unescaped};
ghost use Rattle.sheets.specs.declared.read.EscapeError.TheVariants.{Memory};

use crate::escapes::DIGIT;
use std::alloc::{AllocError, AllocFailed, Global};
use thiserror::Error;

/// Why a word cannot be read.
#[derive(Clone, Copy, Debug, PartialEq, Eq, Error)]
pub enum EscapeError {
    #[error("a backslash before '{}' is no escape", .0.escape_ascii())]
    Unknown(u8),
    #[error("\\x wants two hexadecimal digits after it")]
    Digits,
    #[error("nothing stands after the backslash at the end")]
    Cut,
    #[error("out of memory")]
    Memory,
}

impl From<AllocError> for EscapeError {
    ghost from_gives = { λ _ e. e ≡ Memory };

    fn from(_: AllocError) -> EscapeError {
        EscapeError::Memory
    }
}

impl From<AllocFailed<u8>> for EscapeError {
    ghost from_gives = { λ _ e. e ≡ Memory };

    fn from(_: AllocFailed<u8>) -> EscapeError {
        EscapeError::Memory
    }
}

// The value of a hexadecimal digit: what the library has takes a `char`.
fn digit_of(c: u8) -> Option<u8>
    ensures { result ≡ digit c }
{
    match c {
        b'0'..=b'9' => Some(c - b'0'),
        b'a'..=b'f' => Some(c - b'a' + 10),
        b'A'..=b'F' => Some(c - b'A' + 10),
        _ => None,
    }
}

// The byte that `\x` names, by the bytes after it, and how many bytes the escape takes after its
// backslash.
fn read_hex(digits: &[u8]) -> Result<(u8, usize), EscapeError>
    ensures value { result ≡ hex_escape digits.now }
    ensures within { IfOk result (λ e. e.1 ≤ 1 + length digits.now) }
{
    let [high, low, ..] = digits else {
        return Err(EscapeError::Digits);
    };
    match (digit_of(*high), digit_of(*low)) {
        (Some(high), Some(low)) => Ok((DIGIT * high + low, 3)),
        _ => Err(EscapeError::Digits),
    }
}

// The byte that an escape names, by the bytes after its backslash, and how many of these it takes.
fn read_escape(after: &[u8]) -> Result<(u8, usize), EscapeError>
    ensures value { result ≡ escape after.now }
    ensures within { IfOk result (λ e. e.1 ≤ length after.now) }
{
    match after {
        [] => Err(EscapeError::Cut),
        [b't', ..] => Ok((b'\t', 1)),
        [b'n', ..] => Ok((b'\n', 1)),
        [b'r', ..] => Ok((b'\r', 1)),
        [b'\\', ..] => Ok((b'\\', 1)),
        [b'x', digits @ ..] => read_hex(digits),
        [c, ..] => Err(EscapeError::Unknown(*c)),
    }
}

// The byte that a byte names, with the bytes after it, and how many of these it takes.
fn read_byte(b: u8, after: &[u8]) -> Result<(u8, usize), EscapeError>
    ensures value { result ≡ named_at b after.now }
    ensures within { IfOk result (λ e. e.1 ≤ length after.now) }
{
    match b {
        b'\\' => read_escape(after),
        _ => Ok((b, 0)),
    }
}

/// The bytes that a word names: `\t`, `\n`, `\r`, `\\` and `\x` with two hexadecimal digits name
/// one byte each, and any other byte itself.
///
/// Refused where a backslash begins no such escape, and where memory runs out.
pub fn read_escapes(heap: Global, word: &[u8]) -> Result<Vec<u8>, EscapeError>
    ensures value { IfOk result (λ bytes. unescaped word.now ≡ Ok bytes.items) }
    ensures wrong { IfErr result (λ e. (e ≡ EscapeError.Memory) ⊎ (unescaped word.now ≡ Err e)) }
{
    let mut bytes = Vec::with_capacity(heap, word.len())?;
    let mut rest = word;
    while let Some((first, after)) = rest.split_first() {
        let (byte, taken) = read_byte(*first, after)?;
        bytes.push(byte)?;
        rest = &after[taken..];
    }
    Ok(bytes)
}
