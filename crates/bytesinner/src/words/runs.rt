// The runs of a text between whitespace, one after another.
ghost use Rattle.std.specs.Prelude.{◌≡◌, ◌+◌, ◌≤◌, true, false, length, drop};
ghost use Rattle.std.specs.List.{concat};
ghost use Rattle.searchers.specs.Seen.{IsSeenOf};
ghost use Rattle.searchers.specs.bytesets.Sets.{single_bytes, single_bytes-lawful};
ghost use Rattle.bytesinner.specs.words.Words.{is_space, stretch_len};

use anystr::anystr::AnyStr;
use cutters::piece::Piece;
use cutters::pieces::source::Pieces;
use searchers::lanes::places_among;
use searchers::scan::{Pattern, next_mark};
use searchers::seen::Seen;

/// The runs of a text from a place on.
#[derive(Drop)]
pub struct Runs<S: AnyStr> {
    text: S,
    place: usize,
    // what was seen of the whitespace of the text
    seen: Seen,
    ghost looked: { IsSeenOf (single_bytes is_space (concat (S.elements text))) seen },
}

// Whether a byte is whitespace. By `|` and `&`, without a branch: so many bytes can be tested
// side by side.
#[inline(always)]
pub(super) fn is_space(byte: u8) -> bool
    ensures { result ≡ is_space byte }
{
    (byte == b' ') | ((byte >= b'\t') & (byte <= b'\r'))
}

// Whitespace as a pattern: each byte of it alone.
struct Spaces;

impl Pattern for Spaces {
    ghost marks = { λ _. single_bytes is_space };

    ghost lawful = { λ _. single_bytes-lawful is_space };

    #[inline(always)]
    fn begins(&self, bytes: &[u8], at: usize) -> u64 {
        places_among(bytes, at, b" \t\n\x0c\r\x0b")
    }

    // each mark is one byte
    #[inline(always)]
    fn ends(&self, bytes: &[u8], at: usize) -> u64 {
        self.begins(bytes, at)
    }

    #[inline(always)]
    fn mark_from(&self, bytes: &[u8], start: usize) -> Option<usize> {
        let byte = bytes.get(start)?;
        is_space(*byte).then_some(start + 1)
    }

    #[inline(always)]
    fn mark_to(&self, bytes: &[u8], end: usize) -> Option<usize> {
        let start = end.checked_sub(1)?;
        self.mark_from(bytes, start)?;
        Some(start)
    }
}

// How many bytes at the front are whitespace.
#[inline(always)]
fn spaces_len(bytes: &[u8]) -> usize
    ensures value { result ≡ stretch_len bytes.now true }
    ensures within { result ≤ length bytes.now }
{
    bytes.iter().take_while(|byte| is_space(**byte)).count()
}

// The first whitespace from `start` on, or the end where none is left. So it is where `seen` is
// what was seen of the whitespace; it goes on from there.
#[inline(always)]
fn word_end(bytes: &[u8], start: usize, seen: &mut Seen) -> usize
    requires { start ≤ length bytes.now }
    ensures value { IsSeenOf (single_bytes is_space bytes.now) seen.old
        → result ≡ start + stretch_len (drop start bytes.now) false }
    ensures seen { IsSeenOf (single_bytes is_space bytes.now) seen.old
        → IsSeenOf (single_bytes is_space bytes.now) seen.new }
{
    match next_mark(&Spaces, bytes, start, seen) {
        Some(space) => space.start,
        None => bytes.len(),
    }
}

impl<S: AnyStr> Runs<S> {
    ghost use Rattle.bytesinner.specs.words.Runs.{IsOn};

    /// All the runs of a text.
    pub fn new(text: S) -> Runs<S>
        ensures { IsOn S.AnyStr text 0 result }
    {
        Runs {
            text,
            place: 0,
            seen: Seen::nothing(),
        }
    }
}

impl<S: AnyStr> Iterator for Runs<S> {
    ghost use Rattle.std.specs.Iterator.{item_count};
    ghost use Rattle.bytesinner.specs.words.Runs.{left_runs, RunStep};

    type Item = Piece;

    // the next run, and the place after it
    ghost next_gives = { RunStep S.AnyStr };

    ghost remaining = { item_count (left_runs S.AnyStr) };

    #[inline(always)]
    fn next(&mut self) -> Option<Piece> {
        let bytes = self.text.as_bytes();
        let rest = bytes.get(self.place..)?;
        let start = self.place + spaces_len(rest);
        let end = word_end(bytes, start, &mut self.seen);
        if start == end {
            return None;
        }
        self.place = end;
        Some(Piece { start, end })
    }
}

impl<S: AnyStr> Pieces for Runs<S> {
    ghost use Rattle.bytesinner.specs.words.Runs.{left_runs};
    ghost use Rattle.bytesinner.specs.words.Yields.{next-yields, counts_down};

    ghost left = { left_runs S.AnyStr };

    ghost asked = { λ _. tt };

    ghost gives = { next-yields S.AnyStr };

    ghost counts = { λ s. counts_down S.AnyStr s (S.few s.text) };
}
