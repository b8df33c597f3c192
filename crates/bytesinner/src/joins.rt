// Parts of a text, joined with another text between them.

ghost use Rattle.std.specs.Prelude.{◌≡◌, ◌≤◌, length};
ghost use Rattle.anystr.specs.Places.{stretches};
ghost use Rattle.anystr.specs.Texts.{bytes_of};
ghost use Rattle.trays.specs.Trays.{Fills};
ghost use Rattle.bytesinner.specs.joins.Joins.{most_places, join_of, JoinLaw};

use anystr::anystr::{AnyStr, MAX_BYTES};
use anystr::place::Place;
use anystr::refusal::Refusal;
use trays::container::AnyStrContainer;

mod passes;

/// The most places that a join takes: a text can have as many pieces.
pub const MAX_PLACES: usize = MAX_BYTES + 1;

// Parts of a text, and the text that goes between them: no more parts than a text can have pieces.
#[derive(Drop)]
struct Parts<'a, S: AnyStr> {
    sep: S,
    text: S,
    places: &'a [Place],
    ghost few: { length places.now ≤ most_places },
}

/// Appends the parts of the text at these places, in their order and with `sep` between each and
/// the next. A place is a start and an end in bytes. Refused, and the tray is as it was, where
/// there are more than `MAX_PLACES` (6), else where a place runs backward or is off the boundaries
/// of the text (12, with the index of the first such), and else where fewer bytes are free than the
/// parts take joined (7, with their number).
pub fn join<S: AnyStr, T: AnyStrContainer>(
    sep: &S,
    text: &S,
    places: &[Place],
    tray: &mut T,
) -> Result<(), Refusal>
    ensures fills { Fills T.contents (join_of (bytes_of S.AnyStr sep.now) (S.elements text.now)
        (stretches places.now)) tray.old tray.new result }
    ensures same_loan { T.loan tray.new ≡ T.loan tray.old }
    ensures law { JoinLaw (bytes_of S.AnyStr sep.now) (S.elements text.now) (stretches places.now) }
{
    if places.len() > MAX_PLACES {
        return Err(Refusal::TooLong);
    }
    let parts = Parts {
        sep: *sep,
        text: *text,
        places,
    };
    let needed = parts.measure()?;
    if (tray.free() as u64) < needed {
        return Err(Refusal::TooSmall { needed });
    }
    parts.pour(tray);
    Ok(())
}
