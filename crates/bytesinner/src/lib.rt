// The byte methods under their Python names.
#![tactic(auto)]

pub mod finds;
pub mod joins;
pub mod lines;
pub mod replaces;
pub mod splitargs;
pub mod splits;
pub mod splitting;
pub mod tables;
pub mod words;

pub use crate::finds::count::count;
pub use crate::finds::find::{find, rfind};
pub use crate::joins::join;
pub use crate::lines::splitlines;
pub use crate::replaces::replace;
pub use crate::tables::maketrans::maketrans;
pub use crate::tables::translate::translate;
pub use splitting::{rsplit, split};
