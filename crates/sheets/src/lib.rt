//! What a page shows of a sheet: its texts spelled out, and counts of bytes.
#![tactic(auto)]

pub mod counts;
pub mod escapes;
pub mod read;
pub mod rows;
