// A text with another in place of a third.

ghost use Rattle.std.specs.Prelude.{◌≡◌, ◌≤◌, length};
ghost use Rattle.anystr.specs.Texts.{bytes_of};
ghost use Rattle.trays.specs.Trays.{Fills, gained};
ghost use Rattle.bytesinner.specs.replaces.Replaces.{bound_of, copy_count, if_short};
ghost use Rattle.bytesinner.specs.replaces.Replaces.{replace_of, ReplaceLaw};
ghost use Rattle.bytesinner.specs.replaces.Replacements.{marks_replaced, copies_spread};
ghost use Rattle.bytesinner.specs.replaces.Replacements.{all_replaced};

use anystr::anystr::AnyStr;
use anystr::optional::OptionalArg;
use anystr::refusal::Refusal;
use cutters::bound::UNBOUNDED;
use cutters::cutter::Cutter;
use searchers::substring::Substring;
use trays::container::AnyStrContainer;
use trays::gather::Gather;

/// The most bytes of a result: its length is a signed number of 64 bits.
pub const MAX_RESULT: u64 = i64::MAX as u64;

// A text, with another in place of a third, as often as the bound allows.
#[derive(Clone, Copy)]
struct Replacement<S: AnyStr> {
    text: S,
    from: S,
    to: S,
    bound: i64,
}

impl<S: AnyStr> Replacement<S> {
    // The text with `to` in place of the occurrences of a nonempty `from`.
    fn replace_marks<T: AnyStrContainer>(&self, tray: &mut T) -> Result<(), Refusal>
        ensures fills { Fills T.contents (if_short (marks_replaced S.AnyStr self.now))
            tray.old tray.new result }
        ensures same_loan { T.loan tray.new ≡ T.loan tray.old }
    {
        let mut cutter = Cutter::open(self.text, Substring::new(self.from), self.bound);
        match cutter.pour(&self.to, tray) {
            Err(Refusal::TooSmall { needed }) if needed > MAX_RESULT => Err(Refusal::ResultTooLong),
            answer => answer,
        }
    }

    // The copies of `to` before the elements of the text and at its end.
    fn copies(&self) -> u64
        ensures { result ≡ copy_count (length (S.elements self.now.text)) self.now.bound }
    {
        let gaps = self.text.element_count() as u64 + 1;
        u64::try_from(self.bound).map_or(gaps, |bound| gaps.min(bound))
    }

    // The bytes that the text takes with these copies of `to`, which are counted once: that goes
    // over the text.
    fn measure(&self, copies: u64) -> u64
        requires { copies ≡ copy_count (length (S.elements self.now.text)) self.now.bound }
        ensures { result ≡ length (copies_spread S.AnyStr self.now) }
    {
        self.text.bytes_len() as u64 + copies * self.to.bytes_len() as u64
    }

    // Appends the text, which fits, with these copies of `to`: one before each element, and the
    // last at the end.
    fn spread_copies<T: AnyStrContainer>(&self, copies: u64, tray: &mut T)
        requires count { copies ≡ copy_count (length (S.elements self.now.text)) self.now.bound }
        requires fits { length (copies_spread S.AnyStr self.now)
            ≤ length (T.contents tray.old).spare }
        ensures gained { T.contents tray.new
            ≡ gained (T.contents tray.old) (copies_spread S.AnyStr self.now) }
        ensures same_loan { T.loan tray.new ≡ T.loan tray.old }
    {
        let mut gather = Gather::new(tray);
        // the interface of texts has no iterator over elements, only the element at an offset
        let mut place = 0;
        for _ in 0..copies {
            let _ = gather.push_str(&self.to);
            if let Some((_, len)) = self.text.element_at(place) {
                let end = place + len;
                let _ = gather.push_part(&self.text, place, end);
                place = end;
            }
        }
        let _ = gather.push_part(&self.text, place, self.text.bytes_len());
        let _ = gather.finish();
    }

    // The text with `to` before each element and at the end.
    fn replace_empty<T: AnyStrContainer>(&self, tray: &mut T) -> Result<(), Refusal>
        ensures fills { Fills T.contents (if_short (copies_spread S.AnyStr self.now))
            tray.old tray.new result }
        ensures same_loan { T.loan tray.new ≡ T.loan tray.old }
    {
        let copies = self.copies();
        let needed = self.measure(copies);
        if needed > MAX_RESULT {
            return Err(Refusal::ResultTooLong);
        }
        if (tray.free() as u64) < needed {
            return Err(Refusal::TooSmall { needed });
        }
        self.spread_copies(copies, tray);
        Ok(())
    }

    // The text with `to` in place of `from`.
    fn replace<T: AnyStrContainer>(&self, tray: &mut T) -> Result<(), Refusal>
        ensures fills { Fills T.contents (if_short (all_replaced S.AnyStr self.now))
            tray.old tray.new result }
        ensures same_loan { T.loan tray.new ≡ T.loan tray.old }
    {
        if !self.from.is_empty() {
            self.replace_marks(tray)
        } else if !self.to.is_empty() {
            self.replace_empty(tray)
        } else {
            tray.push_str(&self.text)
        }
    }
}

/// Appends the text with `to` in place of each occurrence of `from`, as often as `maxcount` allows;
/// no number or a negative one is no bound. An empty `from` stands before each element and at the
/// end. Refused, and the tray is as it was, where the result has more than `MAX_RESULT` bytes (5),
/// and else where fewer are free than it has (7, with their number).
pub fn replace<S: AnyStr, T: AnyStrContainer>(
    text: &S,
    from: &S,
    to: &S,
    maxcount: OptionalArg<i64>,
    tray: &mut T,
) -> Result<(), Refusal>
    ensures fills { Fills T.contents (replace_of (S.elements text.now) (bytes_of S.AnyStr from.now)
        (bytes_of S.AnyStr to.now) (bound_of maxcount)) tray.old tray.new result }
    ensures same_loan { T.loan tray.new ≡ T.loan tray.old }
    ensures law { ReplaceLaw (S.elements text.now) (bytes_of S.AnyStr from.now)
        (bytes_of S.AnyStr to.now) (bound_of maxcount) }
{
    let bound = match maxcount {
        OptionalArg::Present(count) if count == 0 => return tray.push_str(text),
        OptionalArg::Present(count) if count > 0 => count,
        OptionalArg::Present(count) if count < 0 => UNBOUNDED,
        // `Missing` alone: no number is left, which guards do not tell Rust
        _ => UNBOUNDED,
    };
    let replacement = Replacement {
        text: *text,
        from: *from,
        to: *to,
        bound,
    };
    replacement.replace(tray)
}
