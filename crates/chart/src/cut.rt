// What calls on a cutter answer.
use super::asked::CutterCall;
use super::listing::room;
use super::page::Page;
use super::stop::Stop;
use anystr::place::Place;
use anystr::refusal::Refusal;
use cutters::piece::Piece;
use cutters::play::{Answer, Call, play};
use searchers::ascii::AsciiStr;
use searchers::substring::Substring;
use std::alloc::Global;
use trays::buffer::Buffer;

/// A sheet that is to be cut, by what and how often.
#[derive(Clone, Copy)]
pub struct Cutting<S: AsciiStr> {
    pub sheet: S,
    pub sep: S,
    pub bound: i64,
}

// The calls, with texts of the sheet's kind to pour. Each pour goes into the one tray.
fn calls_of<'a, S: AsciiStr + TryFrom<&'a [u8], Error = Refusal>>(
    heap: Global,
    asked: &'a [CutterCall],
) -> Result<Vec<Call<S>>, Stop> {
    let mut calls = Vec::with_capacity(heap, asked.len())?;
    for call in asked {
        let call = match call {
            CutterCall::Next => Call::Next,
            CutterCall::Skip(n) => Call::Skip(*n),
            CutterCall::Rest => Call::Rest,
            CutterCall::Pour(to) => Call::Pour {
                to: S::try_from(to.as_slice())?,
                tray: 0,
            },
        };
        let Ok(()) = calls.push(call) else {
            return Err(Stop::Memory);
        };
    }
    Ok(calls)
}

// Plays the calls, with this memory for the tray. A list of one tray on the heap: lending an array
// of what holds a loan gets no generated proof.
fn play_on<S: AsciiStr>(
    heap: Global,
    cutting: &Cutting<S>,
    calls: &[Call<S>],
    tray: &mut [u8],
    answers: &mut [Answer],
) -> Result<(), Stop> {
    let mut trays = Vec::new(heap);
    let Ok(()) = trays.push(Buffer::new(tray)) else {
        return Err(Stop::Memory);
    };
    let sep = Substring::new(cutting.sep);
    play(
        cutting.sheet,
        sep,
        cutting.bound,
        calls,
        trays.as_mut_slice(),
        answers,
    )?;
    Ok(())
}

// How much room the first pour takes, by its answer where it had none. No later one is accepted: it
// finds the cutter spent.
fn room_of(answers: &[Answer]) -> usize {
    for answer in answers {
        if let Answer::Pour(answer) = answer {
            return room(*answer).unwrap_or(0);
        }
    }
    0
}

fn name_of(call: &CutterCall) -> &'static str {
    match call {
        CutterCall::Next => "next",
        CutterCall::Skip(_) => "skip",
        CutterCall::Rest => "rest",
        CutterCall::Pour(_) => "pour",
    }
}

fn show_piece<S: AsciiStr>(page: &mut Page, sheet: &S, piece: Piece) -> Result<(), Stop> {
    let place = Place::from(piece);
    page.piece(place, &sheet.get_bytes(place.start..place.end))
}

fn show_answer<S: AsciiStr>(page: &mut Page, sheet: &S, answer: Answer) -> Result<(), Stop> {
    match answer {
        Answer::Next(Some(piece)) | Answer::Rest(piece) => show_piece(page, sheet, piece),
        Answer::Next(None) => page.say("none"),
        Answer::Skip(Ok(())) | Answer::Pour(Ok(())) => page.say("ok"),
        Answer::Skip(Err(refusal)) | Answer::Pour(Err(refusal)) => page.refused(refusal),
    }
}

/// Plays the calls on a cutter, and shows each answer, and below them what the tray holds.
pub fn show_cut<'a, S: AsciiStr + TryFrom<&'a [u8], Error = Refusal>>(
    page: &mut Page,
    cutting: Cutting<S>,
    asked: &'a [CutterCall],
) -> Result<(), Stop> {
    Substring::check(&cutting.sep)?;
    let calls = calls_of(page.heap, asked)?;
    let mut answers = vec![in page.heap; Answer::Next(None); calls.len()]?;
    let heap = page.heap;
    play_on(
        heap,
        &cutting,
        calls.as_slice(),
        &mut [],
        answers.as_mut_slice(),
    )?;
    // what the first pour takes is just what the tray then holds
    let mut tray = vec![in heap; 0; room_of(answers.as_slice())]?;
    play_on(
        heap,
        &cutting,
        calls.as_slice(),
        tray.as_mut_slice(),
        answers.as_mut_slice(),
    )?;
    for (call, answer) in asked.iter().zip(answers.as_slice()) {
        page.call(name_of(call));
        show_answer(page, &cutting.sheet, *answer)?;
    }
    page.tray(tray.as_slice())
}
