ghost use Rattle.std.specs.Prelude.{◌≡◌, ℕ, ◌+◌, ◌≤◌, ◌==◌, length, map, if◌then◌else◌};
ghost use Rattle.std.specs.List.{prefix_len};
ghost use Rattle.std.specs.Simd.Lanes.{chunk, mask_l};
ghost use Rattle.le_lanes.specs.Next.{fails, is_match, next_of};

use std::simd::prelude::*;

// How many keys are looked at at once.
const LANES: usize = 16;

/// The least place at or after `from` whose key is 0 or `key`: `None` exactly where there is none.
pub fn next_key(keys: &[u32], from: usize, key: u32) -> Option<usize>
    ensures { result ≡ next_of (is_match key) keys.now from }
{
    let mut at = from;
    while at < keys.len() && LANES <= keys.len() - at {
        let passed = passed_keys(keys, at, key);
        if passed < LANES {
            return Some(at + passed);
        }
        at += LANES;
    }
    next_key_singly(keys, at, key)
}

// The same, one key after another.
fn next_key_singly(keys: &[u32], from: usize, key: u32) -> Option<usize>
    ensures { result ≡ next_of (is_match key) keys.now from }
{
    let mut at = from;
    while at < keys.len() {
        let one = keys[at];
        if one == 0 || one == key {
            return Some(at);
        }
        at += 1;
    }
    None
}

// How many of the next keys come before the first of them that is 0 or `key`.
#[inline(always)]
fn passed_keys(keys: &[u32], at: usize, key: u32) -> usize
    requires { at + 16 ≤ length keys.now }
    ensures { result ≡ prefix_len (fails (is_match key)) (chunk at 16 keys.now) }
{
    first_zero(zero_for(u32x16::from_slice(&keys[at..]), key))
}

// The lanes, with 0 in place of a key.
#[inline(always)]
fn zero_for(lanes: u32x16, key: u32) -> u32x16
    ensures { result ≡ map (λ one. if one == key then 0 else one) lanes }
{
    lanes
        .simd_eq(u32x16::splat(key))
        .select(u32x16::splat(0), lanes)
}

// How many lanes come before the first that is 0.
#[inline(always)]
fn first_zero(lanes: u32x16) -> usize
    ensures { result ≡ prefix_len (fails (λ one. one == 0)) lanes }
{
    let mask = zero_mask(lanes);
    if mask == 0 {
        LANES
    } else {
        mask.trailing_zeros() as usize
    }
}

// A bit for each lane, which is set where the lane is 0.
#[inline(always)]
fn zero_mask(lanes: u32x16) -> u64
    ensures { result ≡ mask_l (map (λ one. one == 0) lanes) }
{
    lanes.simd_eq(u32x16::splat(0)).to_bitmask()
}
