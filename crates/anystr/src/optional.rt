// An argument that a caller may leave out.
ghost use Rattle.std.specs.Prelude.{◌≡◌};
ghost use Rattle.std.specs.Option.{MatchOption};
ghost use Rattle.anystr.specs.declared.optional.OptionalArg.TheVariants.{Present, Missing};

/// An argument, or the word that it was left out.
// A type beside `Option`: its name and its cases are the Rust crate's.
#[derive(Clone, Copy)]
pub enum OptionalArg<T> {
    /// the argument that was given
    Present(T),
    /// none was given
    Missing,
}

impl<T> From<Option<T>> for OptionalArg<T> {
    ghost from_gives = { λ argument result. MatchOption argument
        (result ≡ Missing)
        (λ value. result ≡ Present value) };

    /// The argument; `Missing` where there is none.
    fn from(argument: Option<T>) -> OptionalArg<T> {
        match argument {
            Some(value) => OptionalArg::Present(value),
            None => OptionalArg::Missing,
        }
    }
}
