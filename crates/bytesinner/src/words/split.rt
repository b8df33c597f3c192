// Lists of the words of a text.
ghost use Rattle.std.specs.Prelude.{◌≡◌, ◌+◌, suc, min, ◌≤◌, length, Ok};
ghost use Rattle.anystr.specs.Limits.{most_bytes};
ghost use Rattle.anystr.specs.Places.{Lists};
ghost use Rattle.anystr.specs.Texts.{bytes_of};
ghost use Rattle.bytesinner.specs.Splitting.{WordsLaw};
ghost use Rattle.bytesinner.specs.words.Words.{runs, lone_count, words_of, rwords_of};

use super::count::count_words;
use super::runs::Runs;
use anystr::anystr::AnyStr;
use anystr::place::Place;
use anystr::refusal::Refusal;
use cutters::pieces::fill::{fill, room};

// How the runs of a text are shared out among places.
#[derive(Drop)]
struct Shares {
    // how many runs there are
    total: usize,
    // how many of them have a place alone; all the others have one more together
    alone: usize,
    ghost few: { total ≤ suc most_bytes },
    ghost within: { alone ≤ total },
}

impl Shares {
    // At most `maxsplit` runs have a place alone; a negative bound is none.
    fn new<S: AnyStr>(text: &S, maxsplit: i64) -> Shares
        ensures total { result.total ≡ length (runs (bytes_of S.AnyStr text.now)) }
        ensures alone { result.alone ≡ lone_count result.total maxsplit }
    {
        let total = count_words(text.as_bytes());
        let alone = usize::try_from(maxsplit).map_or(total, |bound| total.min(bound));
        Shares { total, alone }
    }

    // The number of places.
    fn places(&self) -> usize
        ensures { result ≡ min self.now.total (self.now.alone + 1) }
    {
        self.total.min(self.alone + 1)
    }
}

/// Lists the words of a text, its runs without whitespace, as starts and ends in bytes, and gives
/// their number. Where there are more runs than a `maxsplit` of 0 or above, the place after the
/// first `maxsplit` goes on to the end of the text. Each place can be cut out of a text in which
/// bytes below 128 stand apart. Refused where the list has too few entries (7, with the number of
/// places), and then the list is as it was.
pub fn split_whitespace<S: AnyStr>(
    text: &S,
    maxsplit: i64,
    places: &mut [Place],
) -> Result<usize, Refusal>
    ensures value { Lists (Ok (words_of (bytes_of S.AnyStr text.now) maxsplit))
        places.old places.new result }
    ensures law { WordsLaw (S.elements text.now) places.new result }
{
    let shares = Shares::new(text, maxsplit);
    let n = room(shares.places(), places)?;
    fill(&mut Runs::new(*text), &mut places[..n]);
    if shares.alone < shares.total {
        places[shares.alone].end = text.bytes_len();
    }
    Ok(n)
}

/// Lists the words of a text as `split_whitespace` does, from the end: where there are more runs
/// than a `maxsplit` of 0 or above, the place before the last `maxsplit` begins at the start of the
/// text. Refused where the list has too few entries (7, with the number of places), and then the
/// list is as it was.
pub fn rsplit_whitespace<S: AnyStr>(
    text: &S,
    maxsplit: i64,
    places: &mut [Place],
) -> Result<usize, Refusal>
    ensures value { Lists (Ok (rwords_of (bytes_of S.AnyStr text.now) maxsplit))
        places.old places.new result }
    ensures law { WordsLaw (S.elements text.now) places.new result }
{
    let shares = Shares::new(text, maxsplit);
    let n = room(shares.places(), places)?;
    let mut last = Runs::new(*text).skip(shares.total - n);
    fill(&mut last, &mut places[..n]);
    if shares.alone < shares.total {
        places[0].start = 0;
    }
    Ok(n)
}
