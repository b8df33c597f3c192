// Pieces of texts.
ghost use Rattle.std.specs.Prelude.{◌≡◌};
ghost use Rattle.anystr.specs.Places.{stretch};
ghost use Rattle.cutters.specs.Calls.{span};

use anystr::place::Place;

/// A piece: a stretch of a text between cuts, from its start to its end in bytes. It may be empty.
// A type of its own beside `Mark`, with which it must not be mixed up: a mark is never empty.
#[derive(Clone, Copy, PartialEq, Eq, Debug)]
pub struct Piece {
    pub start: usize,
    pub end: usize,
}

impl From<Piece> for Place {
    ghost from_gives = { λ piece place. stretch place ≡ span piece };

    fn from(piece: Piece) -> Place {
        Place {
            start: piece.start,
            end: piece.end,
        }
    }
}
