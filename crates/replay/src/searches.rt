// Answers that a searcher gives, and a cutter over it.
use super::case::{Request, Search, Sought, Task};
use super::desk::Desk;
use super::fault::Fault;
use super::kind::Kind;
use super::page::settle;
use anystr::refusal::Refusal;
use cutters::cutter::Cutter;
use searchers::lineends::LineEnds;
use searchers::mark::Mark;
use searchers::searcher::{ReverseSearcher, Searcher};
use searchers::substring::Substring;
use std::alloc::AllocError;

fn write_mark(mark: Option<Mark>, page: &mut String) -> Result<(), AllocError> {
    match mark {
        Some(mark) => write!(page, "mark {}-{}", mark.start, mark.end),
        None => page.push_str("none"),
    }
}

// One call on the cutter.
fn write_call<'a, S: Kind<'a>, F: Searcher<S>>(
    cutter: &mut Cutter<S, F>,
    request: &'a Request,
    desk: &mut Desk,
) -> Result<(), Fault> {
    match request {
        Request::Next => match cutter.next() {
            Some(piece) => write!(desk.page, "piece {}-{}", piece.start, piece.end)?,
            None => desk.page.push_str("none")?,
        },
        Request::Skip(n) => {
            cutter.skip(*n)?;
            desk.page.push_str("ok")?;
        }
        Request::Rest => {
            let rest = cutter.rest();
            write!(desk.page, "rest {}-{}", rest.start, rest.end)?;
        }
        Request::Pour { to, room } => desk.fill("poured", *room, |tray| {
            let to = S::try_from(to.as_slice())?;
            cutter.pour(&to, tray)
        })?,
    }
    Ok(())
}

// The calls in turn, each with its own answer or refusal.
fn write_calls<'a, S: Kind<'a>, F: Searcher<S> + Drop>(
    mut cutter: Cutter<S, F>,
    requests: &'a [Request],
    desk: &mut Desk,
) -> Result<(), AllocError> {
    for (i, request) in requests.iter().enumerate() {
        if i > 0 {
            desk.page.push_str(" | ")?;
        }
        let answered = write_call(&mut cutter, request, desk);
        settle(answered, &mut desk.page)?;
    }
    Ok(())
}

fn write_task<'a, S: Kind<'a>, F: ReverseSearcher<S> + Drop>(
    text: S,
    searcher: F,
    task: &'a Task,
    desk: &mut Desk,
) -> Result<(), AllocError> {
    match task {
        Task::First { from } => write_mark(searcher.find(&text, *from), &mut desk.page),
        Task::Last { before } => write_mark(searcher.rfind(&text, *before), &mut desk.page),
        Task::Cut { bound, requests } => write_calls(
            Cutter::open(text, searcher, *bound),
            requests.as_slice(),
            desk,
        ),
    }
}

// The searcher for a nonempty text.
fn substring<'a, S: Kind<'a>>(needle: &'a [u8]) -> Result<Substring<S>, Refusal> {
    let needle = S::try_from(needle)?;
    Substring::check(&needle)?;
    Ok(Substring::new(needle))
}

/// What a searcher finds, or what the calls on a cutter give.
pub fn write_search<'a, S: Kind<'a>>(case: &'a Search, desk: &mut Desk) -> Result<(), Fault> {
    let text = S::try_from(case.text.as_slice())?;
    match &case.sought {
        Sought::Substring(needle) => {
            write_task(text, substring(needle.as_slice())?, &case.task, desk)?
        }
        Sought::Set(set) => write_task(text, S::make_set(set.as_slice())?, &case.task, desk)?,
        Sought::LineEnds => write_task(text, LineEnds, &case.task, desk)?,
    }
    Ok(())
}
