// Tables of 256 bytes: how they are made, and texts translated by them.

mod entries;
mod identity;
pub mod maketrans;
pub mod translate;
