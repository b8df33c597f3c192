/// How a text is to be split.
#[derive(Clone, Copy)]
pub struct SplitArgs<S> {
    /// the separator; where it is left out, the text is split at whitespace
    pub sep: Option<S>,
    /// the most cuts; a negative one is no bound
    pub maxsplit: i64,
}
