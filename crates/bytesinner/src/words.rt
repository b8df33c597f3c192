// Words: texts split at whitespace, from the front and from the end.

mod count;
mod runs;
pub mod split;
