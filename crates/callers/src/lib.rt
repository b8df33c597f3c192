// Uses of the library, each with a promise to its caller that is proved from public clauses alone.
#![tactic(auto)]

pub mod lists;
pub mod pages;
pub mod replaced;
pub mod rests;
