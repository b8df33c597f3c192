// A tray over another one, to which short stretches go together.
ghost use Rattle.std.specs.Prelude.{◌≡◌, ◌+◌, ◌≤◌, length, take, Ok};
ghost use Rattle.anystr.specs.Limits.{most_bytes};
ghost use Rattle.anystr.specs.Places.{part};
ghost use Rattle.anystr.specs.Texts.{bytes_of};
ghost use Rattle.trays.specs.Trays.{Fills, gained};
ghost use Rattle.trays.specs.declared.gather.TheConstants.{MOST_GATHERED};

use super::container::AnyStrContainer;
use super::strides::{STRIDE, write_part};
use anystr::anystr::AnyStr;
use anystr::bytes::Bytes;
use anystr::refusal::Refusal;

// The bytes of a batch.
const BATCH_BYTES: usize = 256;

// The most bytes that are gathered: behind them a stride has room.
const MOST_GATHERED: usize = BATCH_BYTES - STRIDE;

// Appends bytes that fit.
fn append<T: AnyStrContainer>(tray: &mut T, bytes: &[u8])
    requires few { length bytes.now ≤ most_bytes }
    requires fits { length bytes.now ≤ length (T.contents tray.old).spare }
    ensures gained { T.contents tray.new ≡ gained (T.contents tray.old) bytes.now }
    ensures same_loan { T.loan tray.new ≡ T.loan tray.old }
{
    let _ = tray.push_str(&Bytes::new(bytes));
}

/// A tray over another one: short stretches are gathered, and pushed on together. It holds what the
/// tray below holds, with the gathered bytes behind.
// Not `Drop`: let go, it would lose what is gathered, so it ends by `finish`.
pub struct Gather<'a, T: AnyStrContainer> {
    tray: &'a mut T,
    batch: [u8; BATCH_BYTES],
    len: usize,
    ghost few: { len ≤ MOST_GATHERED },
    ghost fits: { len ≤ length (T.contents tray.now).spare },
}

impl<'a, T: AnyStrContainer> Gather<'a, T> {
    ghost use Rattle.trays.specs.Gathers.{gathered_contents, gathered_loan, lent_tray};

    /// Over a tray, with nothing gathered.
    pub fn new(tray: &'a mut T) -> Gather<'a, T>
        ensures same { gathered_contents result ≡ T.contents tray.old }
        ensures same_loan { gathered_loan result ≡ T.loan tray.old }
        ensures lent { lent_tray result ≡ tray.entry.ghost_name }
    {
        Gather {
            tray,
            batch: [0; BATCH_BYTES],
            len: 0,
        }
    }

    // Pushes on what is gathered.
    fn flush(&mut self)
        ensures same { gathered_contents self.new ≡ gathered_contents self.old }
        ensures none { self.new.len ≡ 0 }
        ensures same_loan { gathered_loan self.new ≡ gathered_loan self.old }
        ensures lent { lent_tray self.new ≡ lent_tray self.old }
    {
        let len = self.len;
        self.len = 0;
        // by a name of its own: no part of a field is lent beside another field
        let batch = &self.batch;
        append(self.tray, &batch[..len]);
    }

    // Gathers the first `n` bytes, which have room.
    #[inline(always)]
    fn hold(&mut self, bytes: &[u8], n: usize)
        requires within { n ≤ length bytes.now }
        requires room { self.old.len + n ≤ MOST_GATHERED }
        requires fits { n ≤ length (gathered_contents self.old).spare }
        ensures gained { gathered_contents self.new
            ≡ gained (gathered_contents self.old) (take n bytes.now) }
        ensures same_loan { gathered_loan self.new ≡ gathered_loan self.old }
        ensures lent { lent_tray self.new ≡ lent_tray self.old }
    {
        write_part(&mut self.batch, self.len, bytes, n);
        self.len += n;
    }

    // Appends the first `n` bytes, which fit, where the batch has too little room: it is pushed on,
    // and more than a batch holds goes on by itself. No part of `push_part`, so that that is short.
    #[cold]
    #[inline(never)]
    fn push_past(&mut self, bytes: &[u8], n: usize)
        requires within { n ≤ length bytes.now }
        requires few { length bytes.now ≤ most_bytes }
        requires fits { n ≤ length (gathered_contents self.old).spare }
        ensures gained { gathered_contents self.new
            ≡ gained (gathered_contents self.old) (take n bytes.now) }
        ensures same_loan { gathered_loan self.new ≡ gathered_loan self.old }
        ensures lent { lent_tray self.new ≡ lent_tray self.old }
    {
        self.flush();
        if n <= MOST_GATHERED {
            self.hold(bytes, n);
        } else {
            append(self.tray, &bytes[..n]);
        }
    }

    /// Appends the bytes of a text from `start` to `end`, as far as there are any. Where they are
    /// more than are free it is refused (7, with their number), and nothing changes.
    #[inline(always)]
    pub fn push_part<S: AnyStr>(
        &mut self,
        text: &S,
        start: usize,
        end: usize,
    ) -> Result<(), Refusal>
        ensures fills { Fills gathered_contents
            (Ok (part (bytes_of S.AnyStr text.now) (start, end))) self.old self.new result }
        ensures same_loan { gathered_loan self.new ≡ gathered_loan self.old }
        ensures lent { lent_tray self.new ≡ lent_tray self.old }
    {
        let bytes = text.as_bytes().get(start..).unwrap_or(&[]);
        let n = end.saturating_sub(start).min(bytes.len());
        if n > self.free() {
            return Err(Refusal::TooSmall { needed: n as u64 });
        }
        if n <= MOST_GATHERED - self.len {
            self.hold(bytes, n);
        } else {
            self.push_past(bytes, n);
        }
        Ok(())
    }

    /// The tray below, given back with all that was appended.
    pub fn finish(mut self) -> &'a mut T
        ensures same { T.contents result.now ≡ gathered_contents self.entry }
        ensures same_loan { T.loan result.now ≡ gathered_loan self.entry }
        ensures lent { result.ghost_name ≡ lent_tray self.entry }
    {
        self.flush();
        let Gather {
            tray,
            batch: _,
            len: _,
        } = self;
        tray
    }
}

impl<'a, T: AnyStrContainer> AnyStrContainer for Gather<'a, T> {
    ghost use Rattle.trays.specs.Gathers.{gathered_contents, gathered_loan, lent_tray};

    ghost contents = { gathered_contents };

    ghost loan = { gathered_loan };

    fn free(&self) -> usize {
        self.tray.free() - self.len
    }

    #[inline(always)]
    fn push_str<S: AnyStr>(&mut self, text: &S) -> Result<(), Refusal>
        ensures fills { Fills gathered_contents (Ok (bytes_of S.AnyStr text.now))
            self.old self.new result }
        ensures same_loan { gathered_loan self.new ≡ gathered_loan self.old }
        ensures lent { lent_tray self.new ≡ lent_tray self.old }
    {
        self.push_part(text, 0, text.bytes_len())
    }
}
