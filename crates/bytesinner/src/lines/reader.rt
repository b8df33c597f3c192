// The pieces of a text without an empty last one, one after another.
ghost use Rattle.std.specs.Prelude.{◌≡◌};
ghost use Rattle.std.specs.Iterator.{item_count};
ghost use Rattle.cuts.specs.Cuts.{at_opening};
ghost use Rattle.cutters.specs.Calls.{text_of, searcher_of};
ghost use Rattle.bytesinner.specs.lines.Reader.{state, left_lines, IsOn, LineStep};
ghost use Rattle.bytesinner.specs.lines.Yields.{next-yields, counts_down};

use anystr::anystr::AnyStr;
use cutters::bound::UNBOUNDED;
use cutters::cutter::Cutter;
use cutters::piece::Piece;
use cutters::pieces::source::Pieces;
use searchers::searcher::Searcher;

/// The lines that a cutter has left, at whatever marks end them.
#[derive(Drop)]
#[derive_where(Clone, Copy; F: Copy)]
pub struct Lines<S: AnyStr, F: Searcher<S>> {
    cutter: Cutter<S, F>,
    keepends: bool,
}

impl<S: AnyStr, F: Searcher<S>> Lines<S, F> {
    /// All the lines of a text.
    pub fn new(text: S, ends: F, keepends: bool) -> Lines<S, F>
        ensures on { IsOn text ends keepends result }
        ensures state { state result ≡ at_opening }
    {
        Lines {
            cutter: Cutter::open(text, ends, UNBOUNDED),
            keepends,
        }
    }
}

impl<S: AnyStr, F: Searcher<S> + Drop> Iterator for Lines<S, F> {
    type Item = Piece;

    // the next line, and the state of the cutter after it
    ghost next_gives = { LineStep };

    ghost remaining = { item_count left_lines };

    // With its end a line goes on to where the cutter stands after it.
    #[inline(always)]
    fn next(&mut self) -> Option<Piece> {
        let rest = self.cutter.rest();
        if rest.start >= rest.end {
            return None;
        }
        let piece = self.cutter.next()?;
        let end = if self.keepends {
            self.cutter.rest().start
        } else {
            piece.end
        };
        Some(Piece {
            start: piece.start,
            end,
        })
    }
}

impl<S: AnyStr, F: Searcher<S> + Drop> Pieces for Lines<S, F> {
    ghost left = { left_lines };

    ghost asked = { λ _. tt };

    ghost gives = { λ l. next-yields l (F.lawful (searcher_of l.cutter) (text_of l.cutter)) };

    ghost counts = { λ l. counts_down l (F.lawful (searcher_of l.cutter) (text_of l.cutter))
        (S.few (text_of l.cutter)) };
}
