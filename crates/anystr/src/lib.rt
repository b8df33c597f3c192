// Texts as the byte methods see them, and what the methods' calls share: refusals, places, indices.
#![tactic(auto)]

pub mod anystr;
pub mod bytes;
pub mod indices;
pub mod optional;
pub mod place;
pub mod refusal;
