// What a line asks.
use anystr::place::Place;
use bytesinner::finds::either::Either;
use bytesinner::lines::SplitLinesArgs;

/// The end of a text that a method begins at.
#[derive(Clone, Copy)]
pub enum End {
    Front,
    Back,
}

/// A split or an rsplit.
#[derive(Drop)]
pub struct Split {
    pub end: End,
    pub text: Vec<u8>,
    pub sep: Option<Vec<u8>>,
    pub maxsplit: i64,
    pub room: usize,
}

/// A split into lines.
#[derive(Drop)]
pub struct SplitLines {
    pub text: Vec<u8>,
    pub args: SplitLinesArgs,
    pub room: usize,
}

/// A join of parts of a text.
#[derive(Drop)]
pub struct Join {
    pub sep: Vec<u8>,
    pub text: Vec<u8>,
    pub places: Vec<Place>,
    pub room: usize,
}

/// A replacement.
#[derive(Drop)]
pub struct Replace {
    pub text: Vec<u8>,
    pub from: Vec<u8>,
    pub to: Vec<u8>,
    pub maxcount: Option<i64>,
    pub room: usize,
}

/// The element that begins at an offset.
#[derive(Drop)]
pub struct Element {
    pub text: Vec<u8>,
    pub offset: usize,
}

/// The part of a text between two offsets.
#[derive(Drop)]
pub struct Part {
    pub text: Vec<u8>,
    pub place: Place,
}

/// What a searcher looks for.
#[derive(Drop)]
pub enum Sought {
    Substring(Vec<u8>),
    Set(Vec<u8>),
    LineEnds,
}

/// A call on a cutter.
#[derive(Drop)]
pub enum Request {
    Next,
    Skip(u64),
    Rest,
    Pour { to: Vec<u8>, room: usize },
}

/// What a searcher is asked.
#[derive(Drop)]
pub enum Task {
    First { from: usize },
    Last { before: usize },
    Cut { bound: i64, requests: Vec<Request> },
}

/// A question to a searcher.
#[derive(Drop)]
pub struct Search {
    pub text: Vec<u8>,
    pub sought: Sought,
    pub task: Task,
}

/// What is asked of a text, whatever its kind.
#[derive(Drop)]
pub enum Question {
    Split(Split),
    SplitLines(SplitLines),
    Join(Join),
    Replace(Replace),
    Element(Element),
    Part(Part),
    Search(Search),
}

/// A find, an rfind or a count.
#[derive(Drop)]
pub struct Find {
    pub text: Vec<u8>,
    pub sub: Either<Vec<u8>, i64>,
    pub start: Option<i64>,
    pub end: Option<i64>,
}

/// A translation.
#[derive(Drop)]
pub struct Translate {
    pub text: Vec<u8>,
    pub table: Option<Vec<u8>>,
    pub delete: Option<Vec<u8>>,
    pub room: usize,
}

/// The making of a table.
#[derive(Drop)]
pub struct Maketrans {
    pub from: Vec<u8>,
    pub to: Vec<u8>,
    pub room: usize,
}

/// A case: the call that a line asks for.
#[derive(Drop)]
pub enum Case {
    // of a text of bytes
    Bytes(Question),
    // of a text of characters
    Text(Question),
    Find(Find),
    Rfind(Find),
    Count(Find),
    Translate(Translate),
    Maketrans(Maketrans),
}
