/// A value of one of two types, by the Rust crate's name.
#[derive(Clone, Copy)]
pub enum Either<A, B> {
    /// a value of the first
    A(A),
    /// a value of the second
    B(B),
}
