// The sheet, from a file or the standard input.
use super::asked::Manner;
use super::trouble::Trouble;
use super::words::nearest;
use anystr::anystr::MAX_BYTES;
use std::fs::File;
use std::io;
use std::io::Read;

// One byte more than a sheet may have tells that there are too many.
const READ_AT_MOST: u64 = MAX_BYTES as u64 + 1;

fn read_input(rt: &HostRuntime) -> io::Result<Vec<u8>> {
    let mut bytes = Vec::new(rt.alloc());
    rt.stdin().take(READ_AT_MOST).read_to_end(&mut bytes)?;
    Ok(bytes)
}

fn read_file(rt: &HostRuntime, file: &str) -> io::Result<Vec<u8>> {
    let mut bytes = Vec::new(rt.alloc());
    File::open(rt, file)?
        .take(READ_AT_MOST)
        .read_to_end(&mut bytes)?;
    Ok(bytes)
}

// A file that cannot be read, where its name stands in the place of a word: it may have been meant
// as one.
fn no_file<'a>(rt: &HostRuntime, file: &'a str, error: io::Error) -> Trouble<'a> {
    match nearest(rt.alloc(), file) {
        Ok(Some(near)) => Trouble::NoFile { file, error, near },
        _ => Trouble::File { file, error },
    }
}

/// The bytes of the sheet.
pub fn read_sheet<'a>(rt: &HostRuntime, manner: &Manner<'a>) -> Result<Vec<u8>, Trouble<'a>> {
    match manner.file {
        None => match read_input(rt) {
            Ok(bytes) => Ok(bytes),
            Err(error) => Err(Trouble::Input(error)),
        },
        Some(file) => match read_file(rt, file) {
            Ok(bytes) => Ok(bytes),
            Err(error) if manner.bare => Err(no_file(rt, file, error)),
            Err(error) => Err(Trouble::File { file, error }),
        },
    }
}
