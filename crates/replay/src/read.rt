// How a line is read.
use super::case::{
    Case, Element, End, Find, Join, Maketrans, Part, Question, Replace, Request, Search, Sought,
    Split, SplitLines, Task, Translate,
};
use super::fault::Fault;
use super::line::Words;
use super::word::FromWord;
use anystr::place::Place;
use bytesinner::finds::either::Either;
use bytesinner::lines::SplitLinesArgs;
use std::alloc::Global;

const NO_PLACES: &[u8; 1] = b".";

fn split(words: &mut Words<'_>, end: End) -> Result<Split, Fault> {
    Ok(Split {
        end,
        text: words.read()?,
        sep: words.read()?,
        maxsplit: words.read()?,
        room: words.room()?,
    })
}

fn splitlines(words: &mut Words<'_>) -> Result<SplitLines, Fault> {
    Ok(SplitLines {
        text: words.read()?,
        args: SplitLinesArgs {
            keepends: words.read()?,
        },
        room: words.room()?,
    })
}

impl FromWord for Place {
    fn from_word(word: &[u8], heap: Global) -> Result<Place, Fault> {
        let mut ends = Words::new(word, b'-', heap);
        let start = ends.read()?;
        let end = ends.read()?;
        ends.finish()?;
        Ok(Place { start, end })
    }
}

impl FromWord for Vec<Place> {
    fn from_word(word: &[u8], heap: Global) -> Result<Vec<Place>, Fault> {
        if word == NO_PLACES.as_slice() {
            return Ok(Vec::new(heap));
        }
        Words::new(word, b',', heap).rest()
    }
}

fn join(words: &mut Words<'_>) -> Result<Join, Fault> {
    Ok(Join {
        sep: words.read()?,
        text: words.read()?,
        places: words.read()?,
        room: words.room()?,
    })
}

fn replace(words: &mut Words<'_>) -> Result<Replace, Fault> {
    Ok(Replace {
        text: words.read()?,
        from: words.read()?,
        to: words.read()?,
        maxcount: words.read()?,
        room: words.room()?,
    })
}

fn element(words: &mut Words<'_>) -> Result<Element, Fault> {
    Ok(Element {
        text: words.read()?,
        offset: words.read()?,
    })
}

fn part(words: &mut Words<'_>) -> Result<Part, Fault> {
    Ok(Part {
        text: words.read()?,
        place: Place {
            start: words.read()?,
            end: words.read()?,
        },
    })
}

impl FromWord for Sought {
    fn from_word(word: &[u8], heap: Global) -> Result<Sought, Fault> {
        let mut parts = Words::new(word, b':', heap);
        let sought = match parts.word()? {
            b"sub" => Sought::Substring(parts.read()?),
            b"set" => Sought::Set(parts.read()?),
            b"lines" => Sought::LineEnds,
            _ => return Err(Fault::NoCase),
        };
        parts.finish()?;
        Ok(sought)
    }
}

impl FromWord for Request {
    fn from_word(word: &[u8], heap: Global) -> Result<Request, Fault> {
        let mut parts = Words::new(word, b':', heap);
        let request = match parts.word()? {
            b"next" => Request::Next,
            b"skip" => Request::Skip(parts.read()?),
            b"rest" => Request::Rest,
            b"pour" => Request::Pour {
                to: parts.read()?,
                room: parts.room()?,
            },
            _ => return Err(Fault::NoCase),
        };
        parts.finish()?;
        Ok(request)
    }
}

fn first(words: &mut Words<'_>) -> Result<Task, Fault> {
    Ok(Task::First {
        from: words.read()?,
    })
}

fn last(words: &mut Words<'_>) -> Result<Task, Fault> {
    Ok(Task::Last {
        before: words.read()?,
    })
}

// All the words that are left are calls.
fn cut(words: &mut Words<'_>) -> Result<Task, Fault> {
    Ok(Task::Cut {
        bound: words.read()?,
        requests: words.rest()?,
    })
}

// A search with the task that `task` reads.
fn search<F: FnOnce(&mut Words<'_>) -> Result<Task, Fault>>(
    words: &mut Words<'_>,
    task: F,
) -> Result<Search, Fault>
    requires { F.IsAlwaysCallable task }
{
    Ok(Search {
        text: words.read()?,
        sought: words.read()?,
        task: task(words)?,
    })
}

fn question(words: &mut Words<'_>, name: &[u8]) -> Result<Question, Fault> {
    match name {
        b"split" => Ok(Question::Split(split(words, End::Front)?)),
        b"rsplit" => Ok(Question::Split(split(words, End::Back)?)),
        b"splitlines" => Ok(Question::SplitLines(splitlines(words)?)),
        b"join" => Ok(Question::Join(join(words)?)),
        b"replace" => Ok(Question::Replace(replace(words)?)),
        b"element" => Ok(Question::Element(element(words)?)),
        b"getbytes" => Ok(Question::Part(part(words)?)),
        b"mark" => Ok(Question::Search(search(words, first)?)),
        b"rmark" => Ok(Question::Search(search(words, last)?)),
        b"cutter" => Ok(Question::Search(search(words, cut)?)),
        _ => Err(Fault::NoCase),
    }
}

// What find looks for: a byte string or a number.
impl FromWord for Either<Vec<u8>, i64> {
    fn from_word(word: &[u8], heap: Global) -> Result<Either<Vec<u8>, i64>, Fault> {
        if word.starts_with(b"x") {
            Ok(Either::A(FromWord::from_word(word, heap)?))
        } else {
            Ok(Either::B(FromWord::from_word(word, heap)?))
        }
    }
}

fn find(words: &mut Words<'_>) -> Result<Find, Fault> {
    Ok(Find {
        text: words.read()?,
        sub: words.read()?,
        start: words.read()?,
        end: words.read()?,
    })
}

fn translate(words: &mut Words<'_>) -> Result<Translate, Fault> {
    Ok(Translate {
        text: words.read()?,
        table: words.read()?,
        delete: words.read()?,
        room: words.room()?,
    })
}

fn maketrans(words: &mut Words<'_>) -> Result<Maketrans, Fault> {
    Ok(Maketrans {
        from: words.read()?,
        to: words.read()?,
        room: words.room()?,
    })
}

// What is asked of a text, whose kind stands before it.
fn of_kind(words: &mut Words<'_>, name: &[u8]) -> Result<Case, Fault> {
    match words.word()? {
        b"bytes" => Ok(Case::Bytes(question(words, name)?)),
        b"text" => Ok(Case::Text(question(words, name)?)),
        _ => Err(Fault::NoCase),
    }
}

fn case(words: &mut Words<'_>) -> Result<Case, Fault> {
    match words.word()? {
        b"find" => Ok(Case::Find(find(words)?)),
        b"rfind" => Ok(Case::Rfind(find(words)?)),
        b"count" => Ok(Case::Count(find(words)?)),
        b"translate" => Ok(Case::Translate(translate(words)?)),
        b"maketrans" => Ok(Case::Maketrans(maketrans(words)?)),
        name => of_kind(words, name),
    }
}

/// The case of a line; no word may be left over.
pub fn read_case(line: &[u8], heap: Global) -> Result<Case, Fault> {
    let mut words = Words::new(line, b' ', heap);
    let case = case(&mut words)?;
    words.finish()?;
    Ok(case)
}
