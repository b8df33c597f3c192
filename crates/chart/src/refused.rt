// Refusals in words.
use anystr::refusal::Refusal;
use std::fmt;

// What a refusal means; the number that it carries, if it does, stands behind.
fn meaning(refusal: Refusal) -> &'static str {
    match refusal {
        Refusal::EmptyNeedle => "nothing to look for, or to separate at",
        Refusal::NotByte => "the number is no byte",
        Refusal::UnequalLengths => "FROM and TO have unequal lengths",
        Refusal::BadTable => "the table has not 256 bytes",
        Refusal::ResultTooLong => "the result is too long",
        Refusal::TooLong => "too many bytes for a text, or too many places",
        Refusal::TooSmall { .. } => "there is no room for",
        Refusal::Spent => "the cutter has no piece left",
        Refusal::TooFew { .. } => "the pieces left are only",
        Refusal::IllFormed { .. } => "what is given is not well-formed text, from byte",
        Refusal::NotAscii { .. } => "not ASCII is the byte",
        Refusal::BadPlace { .. } => "what cannot be cut out is place",
    }
}

// Whether a refusal carries a number.
fn has_value(refusal: Refusal) -> bool {
    matches!(
        refusal,
        Refusal::TooSmall { .. }
            | Refusal::TooFew { .. }
            | Refusal::IllFormed { .. }
            | Refusal::NotAscii { .. }
            | Refusal::BadPlace { .. }
    )
}

/// A refusal, with its number and what it means.
// A type of its own, and no `Display` of the refusal's: `replay` writes numbers alone.
#[derive(Clone, Copy)]
pub struct Refused(pub Refusal);

impl fmt::Display for Refused {
    fn fmt<W: fmt::Write>(&self, f: &mut fmt::Formatter<W>) -> fmt::Result {
        let (number, value) = self.0.code();
        let meaning = meaning(self.0);
        if has_value(self.0) {
            write!(f, "refused ({number}): {meaning} {value}")
        } else {
            write!(f, "refused ({number}): {meaning}")
        }
    }
}
