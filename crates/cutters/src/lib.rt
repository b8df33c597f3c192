// Cutters: texts cut at marks, piece by piece.
#![tactic(auto)]

pub mod bound;
pub mod cutter;
pub mod piece;
pub mod pieces;
pub mod play;
pub mod progress;
