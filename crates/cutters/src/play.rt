// A list of calls, made in turn on one cutter.
ghost use Rattle.std.specs.Prelude.{◌≡◌, map};
ghost use Rattle.cutters.specs.Calls.{opening_of, SameOpening};
ghost use Rattle.cutters.specs.Plays.{PoursAt, Answered, AnswersOn, PlaysOut, PlaysOn};

use super::cutter::Cutter;
use super::piece::Piece;
use anystr::anystr::AnyStr;
use anystr::refusal::Refusal;
use searchers::searcher::Searcher;
use trays::buffer::Buffer;
use trays::container::AnyStrContainer;

/// A call on a cutter.
#[derive(Clone, Copy)]
pub enum Call<S: AnyStr> {
    Next,
    /// skip so many pieces
    Skip(u64),
    Rest,
    /// pour, with the text `to` in place of the marks, into the tray of a list that has this index
    Pour { to: S, tray: usize },
}

/// What a call answered.
#[derive(Clone, Copy, PartialEq, Eq, Debug)]
pub enum Answer {
    Next(Option<Piece>),
    Skip(Result<(), Refusal>),
    Rest(Piece),
    Pour(Result<(), Refusal>),
}

impl<S: AnyStr, F: Searcher<S>> Cutter<S, F> {
    // Pours into the tray of the list that is named. One that is not there holds nothing and has no free byte.
    fn pour_at<T: AnyStrContainer>(
        &mut self,
        to: &S,
        tray: usize,
        trays: &mut [T],
    ) -> Result<(), Refusal>
        ensures step { PoursAt T.contents self.old to.now tray trays.old result self.new trays.new }
        ensures same { SameOpening self.old self.new }
        ensures same_loans { map T.loan trays.new ≡ map T.loan trays.old }
    {
        if tray < trays.len() {
            self.pour(to, &mut trays[tray])
        } else {
            self.pour(to, &mut Buffer::new(&mut []))
        }
    }

    /// Makes one call, with the trays for a pour. A tray that the call names and the list has not holds nothing and has
    /// no free byte.
    pub fn answer<T: AnyStrContainer>(&mut self, call: Call<S>, trays: &mut [T]) -> Answer
        ensures step { Answered T.contents self.old call trays.old result self.new trays.new }
        ensures same { SameOpening self.old self.new }
        ensures cut { AnswersOn self.old result }
        ensures same_loans { map T.loan trays.new ≡ map T.loan trays.old }
    {
        match call {
            Call::Next => Answer::Next(self.next()),
            Call::Skip(n) => Answer::Skip(self.skip(n)),
            Call::Rest => Answer::Rest(self.rest()),
            Call::Pour { to, tray } => Answer::Pour(self.pour_at(&to, tray, trays)),
        }
    }
}

/// Opens a cutter, makes the calls in turn with the trays, and writes each answer. Refused (7, with the number of calls),
/// and nothing changes, where there is no entry for each answer; entries past the answers are as they were.
pub fn play<S: AnyStr, F: Searcher<S> + Drop, T: AnyStrContainer>(
    text: S,
    searcher: F,
    bound: i64,
    calls: &[Call<S>],
    trays: &mut [T],
    answers: &mut [Answer],
) -> Result<(), Refusal>
    ensures plays { PlaysOut S.AnyStr T.contents
        (opening_of S.AnyStr F.Searcher text searcher bound) calls.now
        trays.old trays.new answers.old answers.new result }
    ensures cut { PlaysOn S.AnyStr text calls.now answers.new result }
    ensures same_loans { map T.loan trays.new ≡ map T.loan trays.old }
{
    let n = calls.len();
    if answers.len() < n {
        return Err(Refusal::TooSmall { needed: n as u64 });
    }
    let mut cutter = Cutter::open(text, searcher, bound);
    // Not zipped: once an adapter of `iter_mut` has ended, a proof knows nothing of what was written through it.
    for (i, call) in calls.iter().enumerate() {
        answers[i] = cutter.answer(*call, trays);
    }
    Ok(())
}
