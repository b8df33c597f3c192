// How an answer is written.
use super::fault::Fault;
use std::alloc::AllocError;

const DIGITS: &[u8; 16] = b"0123456789abcdef";

/// Writes a word and a byte string: `x` and two hexadecimal digits for each byte.
pub fn write_bytes(word: &str, bytes: &[u8], page: &mut String) -> Result<(), AllocError> {
    write!(page, "{word} x")?;
    for byte in bytes {
        page.push(DIGITS[*byte as usize / 16] as char)?;
        page.push(DIGITS[*byte as usize % 16] as char)?;
    }
    Ok(())
}

/// Writes what kept a line, or a call on a cutter, from an answer. Only want of memory is left to the caller.
pub fn settle(answered: Result<(), Fault>, page: &mut String) -> Result<(), AllocError> {
    match answered {
        Ok(()) => Ok(()),
        Err(Fault::NoCase) => page.push_str("unreadable"),
        Err(Fault::Refused(refusal)) => {
            let (number, value) = refusal.code();
            write!(page, "refused {number} {value}")
        }
        Err(Fault::NoMemory) => Err(AllocError),
    }
}
