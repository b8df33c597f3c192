// The byte methods that look for a byte string or a byte in a text of bytes: find, rfind and count.

pub mod count;
pub mod either;
pub mod find;
pub mod options;
mod stretch;
