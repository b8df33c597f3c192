// Few bytes written by wide copies.
ghost use Rattle.std.specs.Prelude.{◌≡◌, ◌+◌, ◌≤◌, ◌++◌, length, take};

use std::simd::prelude::*;

// The bytes of the widest copy.
pub(super) const STRIDE: usize = 32;

// Writes the first `n` bytes behind the first `len` of a batch: the first K of them and the last K,
// which may overlap.
#[inline(always)]
fn write_ends<const K: usize>(batch: &mut [u8], len: usize, bytes: &[u8], n: usize)
    requires some { K ≤ n }
    requires few { n ≤ K + K }
    requires within { n ≤ length bytes.now }
    requires room { len + n ≤ length batch.old }
    ensures { take (len + n) batch.new ≡ take len batch.old ++ take n bytes.now }
{
    let last = n - K;
    Simd::<u8, K>::from_slice(bytes).copy_to_slice(&mut batch[len..]);
    Simd::<u8, K>::from_slice(&bytes[last..]).copy_to_slice(&mut batch[len + last..]);
}

// The same, of at most a stride.
#[inline(always)]
fn write_few(batch: &mut [u8], len: usize, bytes: &[u8], n: usize)
    requires few { n ≤ STRIDE }
    requires within { n ≤ length bytes.now }
    requires room { len + n ≤ length batch.old }
    ensures { take (len + n) batch.new ≡ take len batch.old ++ take n bytes.now }
{
    if n >= 16 {
        write_ends::<16>(batch, len, bytes, n);
    } else if n >= 8 {
        write_ends::<8>(batch, len, bytes, n);
    } else if n >= 4 {
        write_ends::<4>(batch, len, bytes, n);
    } else if n >= 2 {
        write_ends::<2>(batch, len, bytes, n);
    } else if n == 1 {
        write_ends::<1>(batch, len, bytes, n);
    }
}

// The same, of any number. Few go as a whole stride, where there is one: what it writes past them
// is no part of the batch.
#[inline(always)]
pub(super) fn write_part(batch: &mut [u8], len: usize, bytes: &[u8], n: usize)
    requires within { n ≤ length bytes.now }
    requires room { len + n + STRIDE ≤ length batch.old }
    ensures { take (len + n) batch.new ≡ take len batch.old ++ take n bytes.now }
{
    if n > STRIDE {
        batch[len..len + n].copy_from_slice(&bytes[..n]);
    } else if bytes.len() >= STRIDE {
        u8x32::from_slice(bytes).copy_to_slice(&mut batch[len..]);
    } else {
        write_few(batch, len, bytes, n);
    }
}
