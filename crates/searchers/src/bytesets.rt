// Sets of bytes, and the search for their bytes.

pub mod asciiset;
pub mod byteset;
