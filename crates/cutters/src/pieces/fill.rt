// Lists of places, written from a source of pieces.
ghost use Rattle.std.specs.Prelude.{◌≡◌, length, take, drop, if◌then◌else◌, Ok, Err, nat_le};
ghost use Rattle.anystr.specs.Refusals.{coded};
ghost use Rattle.anystr.specs.Places.{Lists};
ghost use Rattle.cutters.specs.pieces.Sources.{Filled, Keeps};

use super::source::Pieces;
use anystr::place::Place;
use anystr::refusal::Refusal;

/// Whether a list has room for so many places; refused (7, with their number) where it has fewer entries.
pub fn room(needed: usize, places: &[Place]) -> Result<usize, Refusal>
    ensures { coded result
        ≡ (if nat_le needed (length places.now) then Ok needed else Err (7, needed)) }
{
    if needed <= places.len() {
        Ok(needed)
    } else {
        Err(Refusal::TooSmall {
            needed: needed as u64,
        })
    }
}

/// Writes the next pieces into the places, one into each; a place past the last piece is as it was. The source goes on
/// behind the pieces that are written, and keeps each number that each of its nexts keeps, such as the name of a loan.
pub fn fill<P: Pieces>(source: &mut P, places: &mut [Place])
    ensures written { Filled (take (length places.old) (P.left source.old)) places.old places.new }
    ensures left { P.left source.new ≡ drop (length places.old) (P.left source.old) }
    ensures kept { Keeps P.next_gives source.old source.new }
{
    // Not zipped: once an adapter of `iter_mut` has ended, a proof knows nothing of what was written through it.
    for place in places.iter_mut() {
        let Some(piece) = source.next() else {
            break;
        };
        *place = piece.into();
    }
}

/// Writes all the pieces of a source into the list, and gives their number. A list with too few entries is refused (7,
/// with the number of pieces), and is as it was.
/// They are counted first, in a copy of the source.
pub fn list<P: Pieces + Copy>(mut source: P, places: &mut [Place]) -> Result<usize, Refusal>
    ensures { Lists (Ok (P.left source)) places.old places.new result }
{
    let n = room(source.count_left(), places)?;
    fill(&mut source, places);
    Ok(n)
}
