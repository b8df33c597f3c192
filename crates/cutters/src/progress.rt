// How far a cutter is.
ghost use Rattle.std.specs.Prelude.{◌≡◌, false};
ghost use Rattle.cuts.specs.Cuts.{at};
ghost use Rattle.cutters.specs.Calls.{state_at};

/// The place, the cuts that are made, and whether the last piece is given. A flag, and no enum: a spent cutter has a
/// place and a number of cuts too.
#[derive(Clone, Copy)]
pub struct Progress {
    pub place: usize,
    pub made: u64,
    pub spent: bool,
}

impl Progress {
    /// At a place, with no cut made and no piece given.
    pub fn from_place(place: usize) -> Progress
        ensures { state_at result ≡ at place 0 false }
    {
        Progress {
            place,
            made: 0,
            spent: false,
        }
    }
}
