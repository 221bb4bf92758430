//! The places of the sync word in a long gap, 32 places at a time (UG470, sync word).
ghost use Rattle.std.specs.Prelude.{◌≡◌, ◌≢◌, ◌↔◌, ℕ, ◌+◌, ◌<◌, ◌≤◌, ◌==◌, if◌then◌else◌, length, slice_index, bit_and};
ghost use Rattle.std.specs.Int.{bit_at};
ghost use Rattle.memchr.specs.Find.{IsFirst, OccursAt};
ghost use Rattle.memchr.specs.Lanes.{HasLanes};
ghost use Rattle.x7_packets.specs.Matching.{places_reach};
ghost use Rattle.x7_packets.specs.SyncWord.{sync_bytes};

use std::simd::prelude::*;

/// How many bytes the sync words at 32 places, one after the other, reach over: 32 and three more.
pub(crate) const PLACES_REACH: usize = 35;

/// The 32 bytes from `at` on.
#[inline(always)]
fn load(bytes: &[u8], at: usize) -> u8x32
    requires { at + 32 ≤ length bytes.now }
    ensures { HasLanes result (λ k. slice_index bytes.now (at + k)) }
{
    u8x32::from_slice(&bytes[at..])
}

/// For each of 32 bytes 255 where it is `byte`, and 0 elsewhere.
#[inline(always)]
fn equal_to(bytes: u8x32, byte: u8) -> u8x32
    ensures { HasLanes result (λ k. if slice_index bytes k == byte then 255 else 0) }
{
    bytes
        .simd_eq(u8x32::splat(byte))
        .select(u8x32::splat(255), u8x32::splat(0))
}

/// The bits that two blocks of 32 bytes both have.
#[inline(always)]
fn both(a: u8x32, b: u8x32) -> u8x32
    ensures { HasLanes result (λ k. bit_and (slice_index a k) (slice_index b k)) }
{
    a & b
}

/// A bit for each of 32 bytes that is past 127, the first byte's the lowest bit.
#[inline(always)]
fn top_bits(bytes: u8x32) -> u64
    ensures { (k : ℕ) → (bit_at result k ≡ 1) ↔ (128 ≤ slice_index bytes k) }
{
    bytes.simd_ge(u8x32::splat(128)).to_bitmask()
}

/// The number of the lowest bit that is set, from 0.
#[inline(always)]
fn lowest_bit(bits: u64) -> usize
    requires { bits ≢ 0 }
    ensures most { result < 64 }
    ensures set { bit_at bits result ≡ 1 }
    ensures none_below { (k : ℕ) → k < result → bit_at bits k ≡ 0 }
{
    bits.trailing_zeros() as usize
}

/// A bit for each of the 32 places from `at` on where the sync word stands, the first place's the lowest bit.
#[inline(always)]
fn sync_bits(bytes: &[u8], at: usize) -> u64
    requires { at + places_reach ≤ length bytes.now }
    ensures set_means_found { (k : ℕ) → bit_at result k ≡ 1 → (k < 32) × OccursAt bytes.now sync_bytes (at + k) }
    ensures found_means_set { (k : ℕ) → k < 32 → OccursAt bytes.now sync_bytes (at + k) → bit_at result k ≡ 1 }
{
    let first_two = both(
        equal_to(load(bytes, at), 0xAA),
        equal_to(load(bytes, at + 1), 0x99),
    );
    let last_two = both(
        equal_to(load(bytes, at + 2), 0x55),
        equal_to(load(bytes, at + 3), 0x66),
    );
    top_bits(both(first_two, last_two))
}

/// A bit for each of the 32 places from `at` on where the sync word's first and last byte stand, the first place's the
/// lowest bit: in most gaps none.
#[inline(always)]
fn end_bits(bytes: &[u8], at: usize) -> u64
    requires { at + places_reach ≤ length bytes.now }
    ensures { (k : ℕ) → k < 32 → OccursAt bytes.now sync_bytes (at + k) → bit_at result k ≡ 1 }
{
    top_bits(both(
        equal_to(load(bytes, at), 0xAA),
        equal_to(load(bytes, at + 3), 0x66),
    ))
}

/// The first of the 32 places from `at` on where the sync word stands, `None` where it stands at none of them.
#[inline(always)]
pub(crate) fn first_of_places(bytes: &[u8], at: usize) -> Option<usize>
    requires { at + places_reach ≤ length bytes.now }
    ensures { IsFirst (OccursAt bytes.now sync_bytes) at (at + 32) result }
{
    if end_bits(bytes, at) == 0 {
        return None;
    }
    let bits = sync_bits(bytes, at);
    if bits == 0 {
        return None;
    }
    Some(at + lowest_bit(bits))
}

/// The first place where the sync word stands, `None` where it stands nowhere. The last 32 places may overlap those
/// before.
pub(crate) fn first_sync(bytes: &[u8]) -> Option<usize>
    requires { places_reach ≤ length bytes.now }
    ensures { IsFirst (OccursAt bytes.now sync_bytes) 0 (length bytes.now + 1) result }
{
    let last = bytes.len() - PLACES_REACH;
    let mut at = 0;
    while at < last {
        match first_of_places(bytes, at) {
            Some(place) => return Some(place),
            None => at += 32,
        }
    }
    first_of_places(bytes, last)
}
