// Bytes compared side by side: at which of 64 offsets some bytes stand, as bits.
ghost use Rattle.std.specs.Prelude.{◌≡◌, ◌≢◌, ℕ, ◌+◌, ◌-◌, ◌<◌, ◌≤◌, ◌==◌, if◌then◌else◌, length};
ghost use Rattle.std.specs.Prelude.{bit_or, count_by, drop, slice_index, take};
ghost use Rattle.std.specs.Int.{bit_at};
ghost use Rattle.memchr.specs.Lanes.{HasLanes};
ghost use Rattle.searchers.specs.Lanes.{Places};
ghost use Rattle.searchers.specs.bytesets.Sets.{among};

use std::simd::prelude::*;

/// The offsets that are looked at side by side.
pub const LANES: usize = 64;

// As many bytes are compared at once.
const HALF: usize = LANES / 2;

#[inline(always)]
fn load(bytes: &[u8], at: usize) -> u8x32
    requires { at + 32 ≤ length bytes.now }
    ensures { HasLanes result (λ k. slice_index bytes.now (at + k)) }
{
    u8x32::from_slice(&bytes[at..])
}

// 255 at each lane that is the byte, and 0 elsewhere.
#[inline(always)]
fn equal_to(lanes: u8x32, byte: u8) -> u8x32
    ensures { HasLanes result (λ k. if slice_index lanes k == byte then 255 else 0) }
{
    lanes
        .simd_eq(u8x32::splat(byte))
        .select(u8x32::splat(255), u8x32::splat(0))
}

// The bits of both.
#[inline(always)]
fn either(a: u8x32, b: u8x32) -> u8x32
    ensures { HasLanes result (λ k. bit_or (slice_index a k) (slice_index b k)) }
{
    a | b
}

// Bit k is set where the top bit of lane k is.
#[inline(always)]
fn top_bits(lanes: u8x32) -> u32
    ensures { (k : ℕ) → 128 ≤ slice_index lanes k → bit_at result k ≡ 1 }
{
    lanes.simd_ge(u8x32::splat(128)).to_bitmask() as u32
}

// Where one of the bytes of `set` stands among the 32 from `at` on. The lanes are joined before
// they are made bits, which costs more.
#[inline(always)]
fn whole_among(bytes: &[u8], at: usize, set: &[u8]) -> u32
    requires { at + 32 ≤ length bytes.now }
    ensures { Places (among set.now) bytes.now 32 at result }
{
    let lanes = load(bytes, at);
    let mut hits = u8x32::splat(0);
    for byte in set {
        hits = either(hits, equal_to(lanes, *byte));
    }
    top_bits(hits)
}

// The same near the end too: there the last 32 bytes are looked at, and those before `at` are let
// go. Among fewer than 32 bytes every bit is set.
#[inline(always)]
fn half_among(bytes: &[u8], at: usize, set: &[u8]) -> u32
    ensures { Places (among set.now) bytes.now 32 at result }
{
    let Some(last) = bytes.len().checked_sub(HALF) else {
        return u32::MAX;
    };
    let start = at.min(last);
    if at - start >= HALF {
        return 0;
    }
    whole_among(bytes, start, set) >> (at - start)
}

// The bits of 32 offsets, and behind them those of the next 32.
#[inline(always)]
fn joined(front: u32, back: u32) -> u64
    ensures front { (k : ℕ) → k < 32 → bit_at front k ≡ 1 → bit_at result k ≡ 1 }
    ensures back { (k : ℕ) → 32 ≤ k → bit_at back (k - 32) ≡ 1 → bit_at result k ≡ 1 }
{
    front as u64 | ((back as u64) << HALF)
}

// What `places_among` gives near the end. A function of its own, so that the other way is short.
#[cold]
#[inline(never)]
fn last_among(bytes: &[u8], at: usize, set: &[u8]) -> u64
    ensures { Places (among set.now) bytes.now 64 at result }
{
    let front = half_among(bytes, at, set);
    let back = half_among(bytes, at.saturating_add(HALF), set);
    joined(front, back)
}

/// Where one of the bytes of `set` stands at one of the 64 offsets from `at` on: bit k is set where
/// one does at `at + k`, and maybe elsewhere.
#[inline(always)]
pub fn places_among(bytes: &[u8], at: usize, set: &[u8]) -> u64
    ensures { Places (among set.now) bytes.now 64 at result }
{
    if bytes.len().saturating_sub(at) < LANES {
        return last_among(bytes, at, set);
    }
    let front = whole_among(bytes, at, set);
    let back = whole_among(bytes, at + HALF, set);
    joined(front, back)
}

// How often the byte stands among the 32 from `at` on.
#[inline(always)]
fn times_in(bytes: &[u8], at: usize, byte: u8) -> usize
    requires { at + 32 ≤ length bytes.now }
    ensures value { result ≡ count_by (λ x. x == byte) (take 32 (drop at bytes.now)) }
    ensures few { result ≤ 32 }
{
    u8x32::from_slice(&bytes[at..])
        .simd_eq(u8x32::splat(byte))
        .to_bitmask()
        .count_ones() as usize
}

// How often the byte stands in the bytes.
pub(crate) fn times(bytes: &[u8], byte: u8) -> usize
    ensures { result ≡ count_by (λ x. x == byte) bytes.now }
{
    let mut count = 0;
    let mut at = 0;
    while HALF <= bytes.len() - at {
        count += times_in(bytes, at, byte);
        at += HALF;
    }
    for other in &bytes[at..] {
        if *other == byte {
            count += 1;
        }
    }
    count
}

// The lowest bit that is set.
#[inline(always)]
pub(crate) fn lowest(bits: u64) -> usize
    requires { bits ≢ 0 }
    ensures bound { result < 64 }
    ensures set { bit_at bits result ≡ 1 }
    ensures below { (k : ℕ) → k < result → bit_at bits k ≡ 0 }
{
    bits.trailing_zeros() as usize
}

// The highest bit that is set.
#[inline(always)]
pub(crate) fn highest(bits: u64) -> usize
    requires { bits ≢ 0 }
    ensures bound { result < 64 }
    ensures set { bit_at bits result ≡ 1 }
    ensures above { (k : ℕ) → result < k → bit_at bits k ≡ 0 }
{
    bits.ilog2() as usize
}

// The bits without one that is set.
#[inline(always)]
pub(crate) fn without(bits: u64, bit: usize) -> u64
    requires bound { bit < 64 }
    requires set { bit_at bits bit ≡ 1 }
    ensures smaller { result < bits }
    ensures kept { (k : ℕ) → k < 64 → k ≢ bit → bit_at result k ≡ bit_at bits k }
    ensures no_more { (k : ℕ) → bit_at result k ≡ 1 → bit_at bits k ≡ 1 }
{
    bits & !(1 << bit)
}
