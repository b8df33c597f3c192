// Pieces of a text, one after another, and lists of them.

pub mod fill;
pub mod lent;
pub mod source;
