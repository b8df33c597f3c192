// The bound of the cuts.
ghost use Rattle.std.specs.Prelude.{◌≡◌, ℕ, ◌↔◌, IsTrue};
ghost use Rattle.cuts.specs.Cuts.{fewer as few_cuts};

/// No bound: any negative number is none, as the methods are passed it.
pub const UNBOUNDED: i64 = -1;

/// Whether the cuts made are fewer than the bound; a negative bound is no bound.
pub fn fewer(made: u64, bound: i64) -> bool
    ensures { result ≡ few_cuts made bound }
{
    bound < 0 || made < bound as u64
}

/// Whether there is no bound: any number of cuts is fewer.
pub fn unbounded(bound: i64) -> bool
    ensures { IsTrue result ↔ ((made : ℕ) → IsTrue (few_cuts made bound)) }
{
    bound.is_negative()
}
