// Searchers: what finds marks in texts.
#![tactic(auto)]

pub mod ascii;
pub mod bytesets;
pub mod count;
pub mod lanes;
pub mod lineends;
pub mod mark;
pub mod scan;
pub mod searcher;
pub mod seen;
pub mod substring;
