// The passes over the parts of a join.
ghost use Rattle.std.specs.Prelude.{◌≡◌, ◌≤◌, length};
ghost use Rattle.anystr.specs.Refusals.{coded};
ghost use Rattle.trays.specs.Trays.{gained};
ghost use Rattle.bytesinner.specs.joins.Joins.{unless_bad};
ghost use Rattle.bytesinner.specs.joins.Parts.{bad_part, joined_parts};

use super::Parts;
use anystr::anystr::AnyStr;
use anystr::refusal::Refusal;
use trays::container::AnyStrContainer;
use trays::gather::Gather;

impl<'a, S: AnyStr> Parts<'a, S> {
    // The bytes that they take joined; refused, with its index, at the first place that is no part
    // of the text.
    pub(super) fn measure(&self) -> Result<u64, Refusal>
        ensures { coded result ≡ unless_bad (bad_part self.now) (length (joined_parts self.now)) }
    {
        let gaps = self.places.len().saturating_sub(1);
        let mut sum = gaps * self.sep.bytes_len();
        for (index, place) in self.places.iter().enumerate() {
            self.text
                .check_bytes(place.start..place.end)
                .map_err(|_| Refusal::BadPlace {
                    index: index as u64,
                })?;
            sum += place.end - place.start;
        }
        Ok(sum as u64)
    }

    // Appends them joined, where all fit, so that no push is refused.
    pub(super) fn pour<T: AnyStrContainer>(&self, tray: &mut T)
        requires { length (joined_parts self.now) ≤ length (T.contents tray.old).spare }
        ensures gained { T.contents tray.new
            ≡ gained (T.contents tray.old) (joined_parts self.now) }
        ensures same_loan { T.loan tray.new ≡ T.loan tray.old }
    {
        let mut gather = Gather::new(tray);
        for (index, place) in self.places.iter().enumerate() {
            if index > 0 {
                let _ = gather.push_str(&self.sep);
            }
            let _ = gather.push_part(&self.text, place.start, place.end);
        }
        let _ = gather.finish();
    }
}
