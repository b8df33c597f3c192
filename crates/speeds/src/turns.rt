// Calls done again and again, and how long they take.
use super::answer::answer;
use super::call::Call;
use super::desk::Desk;
use super::trouble::Trouble;
use anystr::bytes::Bytes;
use std::time::Instant;

/// What turns gave.
#[derive(Clone, Copy)]
pub struct Taken {
    /// what the call answered in the last one
    pub number: usize,
    /// the least time of a turn, in nanoseconds
    pub least: u128,
    /// the median of the times
    pub median: u128,
}

// Makes the first byte `x` or `y`, by the trace of the turn before.
fn mark(sheet: &mut [u8], trace: usize) {
    if let Some(first) = sheet.first_mut() {
        *first = if trace % 2 == 0 { b'x' } else { b'y' };
    }
}

/// Does the call for so many turns. Each turn marks the sheet for the next, so that a compiler can leave none out.
pub fn take_turns(
    rt: &HostRuntime,
    call: Call<'_>,
    turns: u32,
    sheet: &mut [u8],
) -> Result<Taken, Trouble> {
    let mut number = 0;
    let mut trace = 0;
    mark(sheet, trace);
    let mut desk = Desk::new(rt.alloc(), call, &Bytes::new(sheet))?;
    let mut times = vec![in rt.alloc(); 0; turns as usize]?;
    for time in times.iter_mut() {
        mark(sheet, trace);
        let start = Instant::now(rt)?;
        number = answer(call, &Bytes::new(sheet), &mut desk)?;
        *time = start.elapsed(rt)?.as_nanos();
        trace = desk.trace(number);
    }
    times.sort_unstable();
    Ok(Taken {
        number,
        least: times.first().copied().unwrap_or(0),
        median: times.get(times.len() / 2).copied().unwrap_or(0),
    })
}
