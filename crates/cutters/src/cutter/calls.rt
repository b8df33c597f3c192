// The calls on a cutter.
ghost use Rattle.std.specs.Prelude.{◌≡◌, ◌-◌, ◌≤◌, true, false, if◌then◌else◌};
ghost use Rattle.std.specs.Prelude.{[], length, take, drop};
ghost use Rattle.std.specs.Prelude.{Some};
ghost use Rattle.anystr.specs.Texts.{bytes_of};
ghost use Rattle.trays.specs.Trays.{gained};
ghost use Rattle.cuts.specs.Cuts.{at, at_opening, poured_out, size};
ghost use Rattle.cuts.specs.Runs.{RunsLaw};
ghost use Rattle.cutters.specs.Calls.{opening, state, span, poured_by, IsOn, SameOpening, PieceOn};
ghost use Rattle.cutters.specs.Calls.{Nexts, Rests, Skips, Pours};

use super::Cutter;
use crate::bound::fewer;
use crate::piece::Piece;
use crate::progress::Progress;
use anystr::anystr::AnyStr;
use anystr::bytes::Bytes;
use anystr::refusal::Refusal;
use searchers::searcher::Searcher;
use searchers::seen::Seen;
use trays::container::AnyStrContainer;
use trays::gather::Gather;

// The bytes from `start` to `end`, as far as there are any.
fn stretch(bytes: &[u8], start: usize, end: usize) -> &[u8]
    ensures { result.now ≡ take (end - start) (drop start bytes.now) }
{
    bytes.get(start..end.min(bytes.len())).unwrap_or(&[])
}

// The bytes that come after a piece: those of `to`, and none after the last piece.
fn gap_after<S: AnyStr>(progress: Progress, to: &S) -> &[u8]
    ensures { result.now ≡ (if progress.spent then [] else bytes_of S.AnyStr to.now) }
{
    if progress.spent { &[] } else { to.as_bytes() }
}

impl<S: AnyStr, F: Searcher<S>> Cutter<S, F> {
    /// A cutter on the whole text, at offset 0, with no cut made. `bound` is the most cuts that it makes; a negative one
    /// is no bound.
    pub fn open(text: S, searcher: F, bound: i64) -> Cutter<S, F>
        ensures on { IsOn text searcher bound result }
        ensures state { state result ≡ at_opening }
        ensures law { RunsLaw (opening result) }
    {
        Cutter {
            text,
            searcher,
            bound,
            progress: Progress::from_place(0),
            seen: Seen::nothing(),
        }
    }

    /// The rest: the text from the place on.
    pub fn rest(&self) -> Piece
        ensures step { Rests self.now result }
        ensures cut { PieceOn self.now (Some result) }
    {
        Piece {
            start: self.progress.place,
            end: self.text.bytes_len(),
        }
    }

    // The whole rest, as the last piece.
    #[inline(always)]
    fn last(&mut self) -> Piece
        ensures value { span result ≡ ((state self.old).place, size (opening self.old)) }
        ensures after { state self.new ≡ at (size (opening self.old)) (state self.old).made true }
        ensures same { SameOpening self.old self.new }
        ensures cut { PieceOn self.old (Some result) }
    {
        let piece = self.rest();
        self.progress = Progress {
            place: piece.end,
            spent: true,
            ..self.progress
        };
        piece
    }

    /// The next piece, which ends at the first mark from the place on; the whole rest where there is none or the bound is
    /// used up; none where the cutter is spent.
    #[inline(always)]
    pub fn next(&mut self) -> Option<Piece>
        ensures step { Nexts self.old result self.new }
        ensures same { SameOpening self.old self.new }
        ensures cut { PieceOn self.old result }
    {
        if self.progress.spent {
            return None;
        }
        if !fewer(self.progress.made, self.bound) {
            return Some(self.last());
        }
        let text = self.text;
        let start = self.progress.place;
        let Some(mark) = self.searcher.resume(&text, start, &mut self.seen) else {
            return Some(self.last());
        };
        self.progress = Progress {
            place: mark.end,
            made: self.progress.made + 1,
            ..self.progress
        };
        Some(Piece {
            start,
            end: mark.start,
        })
    }

    /// Passes over `n` pieces, as so many nexts do. Where fewer are left it is refused (9, with their number), and the
    /// cutter is as it was.
    pub fn skip(&mut self, n: u64) -> Result<(), Refusal>
        ensures step { Skips self.old n result self.new }
        ensures same { SameOpening self.old self.new }
    {
        let before = self.progress;
        for left in 0..n {
            let Some(_) = self.next() else {
                self.progress = before;
                return Err(Refusal::TooFew { left });
            };
        }
        Ok(())
    }

    // Appends the rest, which fits, to the tray with `to` in place of each mark still to be cut.
    fn pour_pieces<T: AnyStrContainer>(&mut self, to: &S, tray: &mut T)
        requires unspent { (state self.old).spent ≡ false }
        requires fits { length (poured_by self.old to.now) ≤ length (T.contents tray.old).spare }
        ensures gained { T.contents tray.new
            ≡ gained (T.contents tray.old) (poured_by self.old to.now) }
        ensures same_loan { T.loan tray.new ≡ T.loan tray.old }
        ensures after { state self.new ≡ poured_out (opening self.old) (state self.old) }
        ensures same { SameOpening self.old self.new }
    {
        let text = self.text;
        let mut gather = Gather::new(tray);
        while let Some(piece) = self.next() {
            let _ = gather.push_part(&text, piece.start, piece.end);
            let _ = gather.push_str(&Bytes::new(gap_after(self.progress, to)));
        }
        let _ = gather.finish();
    }

    /// Appends the rest to the tray, with `to` in place of each mark that is still to be cut; the cutter is then spent.
    /// Refused on a spent cutter (8), and where the tray has too few free bytes (7, with the bytes needed); cutter and
    /// tray are then as they were.
    pub fn pour<T: AnyStrContainer>(&mut self, to: &S, tray: &mut T) -> Result<(), Refusal>
        ensures step { Pours T.contents self.old to.now tray.old result self.new tray.new }
        ensures same { SameOpening self.old self.new }
        ensures same_loan { T.loan tray.new ≡ T.loan tray.old }
    {
        if self.progress.spent {
            return Err(Refusal::Spent);
        }
        let needed = self.measure(to);
        if (tray.free() as u64) < needed {
            return Err(Refusal::TooSmall { needed });
        }
        self.pour_pieces(to, tray);
        Ok(())
    }
}
