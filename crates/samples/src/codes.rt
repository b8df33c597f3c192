// The answers of calls, by the numbers of the refusals.
use anystr::refusal::Refusal;

// what a call answers: nothing, or the code of a refusal
pub(super) type Code = Result<(), (u8, u64)>;

pub(super) fn code(answer: Result<(), Refusal>) -> Code {
    answer.map_err(|refusal| refusal.code())
}
