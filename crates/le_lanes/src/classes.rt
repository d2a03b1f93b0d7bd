ghost use Rattle.std.specs.Prelude.{◌≡◌, ℕ, ◌+◌, ◌*◌, ◌/◌, ◌%◌, ◌^◌, ◌<◌, ◌≤◌, ◌==◌, length, map, slice_index};
ghost use Rattle.std.specs.List.{prefix_len};
ghost use Rattle.std.specs.Simd.Lanes.{Each1, chunk, mask_l, zip2};
ghost use Rattle.le_lanes.specs.Next.{fails, is_in, next_of};

use std::simd::prelude::*;

// How many bytes are looked at at once.
const LANES: usize = 32;

/// The least place at or after `from` of a byte b of a class: bit b mod 8 of `class[b / 8]` is set. `None`
/// exactly where there is none.
pub fn next_in(bytes: &[u8], from: usize, class: &[u8; 32]) -> Option<usize>
    ensures { result ≡ next_of (is_in class.now) bytes.now from }
{
    let mut at = from;
    while at < bytes.len() && LANES <= bytes.len() - at {
        let passed = passed_bytes(bytes, at, class);
        if passed < LANES {
            return Some(at + passed);
        }
        at += LANES;
    }
    next_in_singly(bytes, at, class)
}

// The same, one byte after another.
fn next_in_singly(bytes: &[u8], from: usize, class: &[u8; 32]) -> Option<usize>
    ensures { result ≡ next_of (is_in class.now) bytes.now from }
{
    let mut at = from;
    while at < bytes.len() {
        let byte = bytes[at];
        if (class[(byte / 8) as usize] >> (byte % 8)) % 2 == 1 {
            return Some(at);
        }
        at += 1;
    }
    None
}

// How many of the next bytes come before the first of them that is of the class.
#[inline(always)]
fn passed_bytes(bytes: &[u8], at: usize, class: &[u8; 32]) -> usize
    requires { at + 32 ≤ length bytes.now }
    ensures { result ≡ prefix_len (fails (is_in class.now)) (chunk at 32 bytes.now) }
{
    first_one(class_bits(u8x32::from_slice(&bytes[at..]), class))
}

// For each lane 1 where its byte is of the class, else 0.
#[inline(always)]
fn class_bits(lanes: u8x32, class: &[u8; 32]) -> u8x32
    ensures { result ≡ map (λ byte. slice_index class.now (byte / 8) / 2 ^ (byte % 8) % 2) lanes }
{
    bits_of(rows_of(row_numbers(lanes), class), bit_numbers(lanes))
}

// For each lane the number of the byte of a class that has its bit.
#[inline(always)]
fn row_numbers(lanes: u8x32) -> u8x32
    ensures { result ≡ map (λ byte. byte / 8) lanes }
{
    lanes >> u8x32::splat(3)
}

// For each lane the number of its bit in that byte.
#[inline(always)]
fn bit_numbers(lanes: u8x32) -> u8x32
    ensures { result ≡ map (λ byte. byte % 8) lanes }
{
    lanes & u8x32::splat(7)
}

// For each lane the byte of the class of that number.
#[inline(always)]
fn rows_of(numbers: u8x32, class: &[u8; 32]) -> u8x32
    requires { Each1 (λ n. n < 32) numbers }
    ensures { result ≡ map (λ n. slice_index class.now n) numbers }
{
    u8x32::from_array(*class).swizzle_dyn(numbers)
}

// For each lane the bit of that number.
#[inline(always)]
fn bits_of(rows: u8x32, numbers: u8x32) -> u8x32
    requires { Each1 (λ n. n < 8) numbers }
    ensures { result ≡ zip2 (λ row n. row / 2 ^ n % 2) rows numbers }
{
    (rows >> numbers) & u8x32::splat(1)
}

// How many lanes come before the first that is 1.
#[inline(always)]
fn first_one(lanes: u8x32) -> usize
    ensures { result ≡ prefix_len (fails (λ one. one == 1)) lanes }
{
    let mask = one_mask(lanes);
    if mask == 0 {
        LANES
    } else {
        mask.trailing_zeros() as usize
    }
}

// A bit for each lane, which is set where the lane is 1.
#[inline(always)]
fn one_mask(lanes: u8x32) -> u64
    ensures { result ≡ mask_l (map (λ one. one == 1) lanes) }
{
    lanes.simd_eq(u8x32::splat(1)).to_bitmask()
}
