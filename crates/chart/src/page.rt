// What is shown, line by line.
use super::refused::Refused;
use super::stop::Stop;
use anystr::bytes::Bytes;
use anystr::place::Place;
use anystr::refusal::Refusal;
use itoa::Buffer;
use searchers::ascii::AsciiStr;
use sheets::escapes::add_text;
use sheets::rows::Deviant;
use std::alloc::Global;
use std::io;
use std::io::Write;
use std::rt::Stdout;
use text::Text;

// So many bytes of lines are written out at once.
const FULL: usize = 65_536;

const BLANKS: &[u8] = b"                ";

// The widths of a number, of an offset, and of the name of a count.
const NUMBER: usize = 4;

const OFFSET: usize = 8;

const NAME: usize = 14;

// Whether bytes are written to a shell without quotes.
fn is_plain(word: &[u8]) -> bool {
    !word.is_empty() && word.iter().all(|b| b.is_ascii_alphanumeric() || *b == b'-')
}

/// The number of a row, and of what stands in it.
#[derive(Clone, Copy)]
pub enum Number {
    /// by itself
    One(usize),
    /// in the row of the first number
    In(usize, usize),
}

/// The lines that are shown. A line for which memory runs out is not ended, and nothing is written
/// after it.
#[derive(Drop)]
pub struct Page {
    out: Stdout,
    // lines that are not yet written out
    lines: Vec<u8>,
    // whether memory ran out in the line
    failed: bool,
    pub tsv: bool,
    pub heap: Global,
}

impl Page {
    /// A page that is written to `out`, for programs or for people.
    pub fn new(out: Stdout, heap: Global, tsv: bool) -> Page {
        Page {
            out,
            lines: Vec::new(heap),
            failed: false,
            tsv,
            heap,
        }
    }

    fn put(&mut self, bytes: &[u8]) {
        let put = self.lines.extend_from_slice(bytes);
        self.failed |= put.is_err();
    }

    // A text as it is shown.
    fn content<S: AsciiStr>(&mut self, text: &S) {
        let put = add_text(&mut self.lines, text);
        self.failed |= put.is_err();
    }

    fn blanks(&mut self, n: usize) {
        self.put(BLANKS.get(..n).unwrap_or(BLANKS));
    }

    fn number(&mut self, n: usize) {
        self.put(Buffer::new().format(n).as_bytes());
    }

    // A number that ends at this width, or goes past it.
    fn to_right(&mut self, n: usize, width: usize) {
        let mut buffer = Buffer::new();
        let digits = buffer.format(n).as_bytes();
        self.blanks(width.saturating_sub(digits.len()));
        self.put(digits);
    }

    // A number, and blanks up to this width.
    fn to_left(&mut self, n: usize, width: usize) {
        let mut buffer = Buffer::new();
        let digits = buffer.format(n).as_bytes();
        self.put(digits);
        self.blanks(width.saturating_sub(digits.len()));
    }

    // A place in bytes, in columns.
    fn place(&mut self, place: Place) {
        self.to_right(place.start, OFFSET);
        self.put(b"..");
        self.to_left(place.end, OFFSET);
        self.blanks(2);
    }

    // A text in quotes.
    fn quoted<S: AsciiStr>(&mut self, text: &S) {
        self.put(b"\"");
        self.content(text);
        self.put(b"\"");
    }

    // Ends a line, and writes out what has gathered if that is much.
    fn end(&mut self) -> Result<(), Stop> {
        self.put(b"\n");
        if self.failed {
            return Err(Stop::Memory);
        }
        if self.lines.len() >= FULL {
            self.write_out()?;
        }
        Ok(())
    }

    fn write_out(&mut self) -> io::Result<()> {
        self.out.write_all(self.lines.as_slice())?;
        self.lines.clear();
        Ok(())
    }

    /// Everything is written out.
    pub fn finish(&mut self) -> io::Result<()> {
        self.write_out()?;
        self.out.flush()
    }

    // The number, start and end of a line for programs.
    fn columns(&mut self, number: Number, place: Place) {
        match number {
            Number::One(n) => self.number(n),
            Number::In(row, n) => {
                self.number(row);
                self.put(b".");
                self.number(n);
            }
        }
        self.put(b"\t");
        self.number(place.start);
        self.put(b"\t");
        self.number(place.end);
        self.put(b"\t");
    }

    /// A part of the sheet, with its number, its place in bytes and its content.
    pub fn part<S: AsciiStr>(
        &mut self,
        number: Number,
        place: Place,
        content: &S,
    ) -> Result<(), Stop> {
        match number {
            _ if self.tsv => {
                self.columns(number, place);
                self.content(content);
            }
            Number::One(n) | Number::In(_, n) => {
                self.blanks(NUMBER);
                self.to_right(n, NUMBER);
                self.blanks(2);
                self.place(place);
                self.quoted(content);
            }
        }
        self.end()
    }

    // A row's number.
    fn row_head(&mut self, number: usize) {
        self.put(b"row ");
        self.to_right(number, NUMBER);
        self.blanks(2);
    }

    /// A row of the sheet, before its parts; for programs with its content.
    pub fn row<S: AsciiStr>(
        &mut self,
        number: usize,
        place: Place,
        content: &S,
    ) -> Result<(), Stop> {
        if self.tsv {
            return self.part(Number::One(number), place, content);
        }
        self.put(b"\n");
        self.row_head(number);
        self.to_right(place.start, OFFSET);
        self.put(b"..");
        self.number(place.end);
        self.end()
    }

    /// A row that has another number of fields than is expected.
    pub fn deviant<S: AsciiStr>(
        &mut self,
        deviant: Deviant,
        expected: usize,
        content: &S,
    ) -> Result<(), Stop> {
        if self.tsv {
            return self.part(Number::One(deviant.number), deviant.place, content);
        }
        self.row_head(deviant.number);
        self.place(deviant.place);
        self.put(b"fields ");
        self.number(deviant.fields);
        self.put(b", expected ");
        self.number(expected);
        self.blanks(2);
        self.quoted(content);
        self.end()
    }

    /// A line with a number; none for programs.
    pub fn line(&mut self, before: &str, number: usize, after: &str) -> Result<(), Stop> {
        if self.tsv {
            return Ok(());
        }
        self.put(before.as_bytes());
        self.number(number);
        self.put(after.as_bytes());
        self.end()
    }

    /// A count under its name, on a line of its own.
    pub fn count(&mut self, name: &str, count: usize) -> Result<(), Stop> {
        self.put(name.as_bytes());
        self.blanks(NAME.saturating_sub(name.len()));
        self.to_right(count, OFFSET);
        self.end()
    }

    /// A line of text.
    pub fn say(&mut self, text: &str) -> Result<(), Stop> {
        self.put(text.as_bytes());
        self.end()
    }

    /// A word of a call, as one would write it to a shell; nothing for programs.
    pub fn word(&mut self, word: &[u8]) {
        if self.tsv {
            return;
        }
        if is_plain(word) {
            self.put(word);
        } else {
            self.quoted(&Text::new(word));
        }
        self.put(b" ");
    }

    /// A call on a cutter, before its answer.
    pub fn call(&mut self, name: &str) {
        self.blanks(NUMBER);
        self.put(name.as_bytes());
        self.blanks(OFFSET.saturating_sub(name.len()));
    }

    /// A place with its content, behind a call.
    pub fn piece<S: AsciiStr>(&mut self, place: Place, content: &S) -> Result<(), Stop> {
        self.place(place);
        self.quoted(content);
        self.end()
    }

    /// A refusal as an answer.
    pub fn refused(&mut self, refusal: Refusal) -> Result<(), Stop> {
        let put = write!(self.lines, "{}", Refused(refusal));
        self.failed |= put.is_err();
        self.end()
    }

    /// What a tray holds: as text where it is text, and else byte by byte.
    pub fn tray(&mut self, bytes: &[u8]) -> Result<(), Stop> {
        self.put(b"tray    ");
        match Text::try_from(bytes) {
            Ok(text) => self.quoted(&text),
            Err(_) => self.quoted(&Bytes::new(bytes)),
        }
        self.end()
    }
}
