// Lines answered one after another.
use super::case::{Case, Question};
use super::desk::Desk;
use super::fault::Fault;
use super::fills::{write_join, write_maketrans, write_replace, write_translate};
use super::kind::Kind;
use super::lists::{write_split, write_splitlines};
use super::offsets::{write_count, write_find};
use super::page::settle;
use super::read::read_case;
use super::searches::write_search;
use super::texts::{write_element, write_part};
use anystr::bytes::Bytes;
use bytesinner::{find, rfind};
use std::alloc::{AllocError, Global};
use text::Text;

fn write_question<'a, S: Kind<'a>>(question: &'a Question, desk: &mut Desk) -> Result<(), Fault> {
    match question {
        Question::Split(case) => write_split::<S>(case, desk),
        Question::SplitLines(case) => write_splitlines::<S>(case, desk),
        Question::Join(case) => write_join::<S>(case, desk),
        Question::Replace(case) => write_replace::<S>(case, desk),
        Question::Element(case) => write_element::<S>(case, &mut desk.page),
        Question::Part(case) => write_part::<S>(case, &mut desk.page),
        Question::Search(case) => write_search::<S>(case, desk),
    }
}

fn write_case(case: &Case, desk: &mut Desk) -> Result<(), Fault> {
    match case {
        Case::Bytes(question) => write_question::<Bytes>(question, desk),
        Case::Text(question) => write_question::<Text>(question, desk),
        Case::Find(case) => write_find(case, &mut desk.page, find),
        Case::Rfind(case) => write_find(case, &mut desk.page, rfind),
        Case::Count(case) => write_count(case, &mut desk.page),
        Case::Translate(case) => write_translate(case, desk),
        Case::Maketrans(case) => write_maketrans(case, desk),
    }
}

// Reads a line and writes its answer.
fn write_line(line: &[u8], heap: Global, desk: &mut Desk) -> Result<(), Fault> {
    write_case(&read_case(line, heap)?, desk)
}

/// What is kept from line to line.
#[derive(Drop)]
pub struct Session {
    heap: Global,
    desk: Desk,
}

impl Session {
    /// A session that has answered nothing.
    pub fn new(heap: Global) -> Session {
        Session {
            heap,
            desk: Desk::new(heap),
        }
    }

    /// The answer to a line, with its line end; an error where there is too little memory.
    pub fn answer(&mut self, line: &[u8]) -> Result<&str, AllocError> {
        self.desk.page.clear();
        let answered = write_line(line, self.heap, &mut self.desk);
        settle(answered, &mut self.desk.page)?;
        self.desk.page.push_str("\n")?;
        Ok(self.desk.page.as_str())
    }
}
