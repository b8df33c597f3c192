// Trays: what bytes are appended to.
#![tactic(auto)]

pub mod anytray;
pub mod buffer;
pub mod container;
pub mod gather;
pub mod label;
mod put;
mod strides;
