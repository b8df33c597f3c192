// Texts split at a separator, from the front and from the end.

pub mod back;
pub mod rsplit;
pub mod split;
