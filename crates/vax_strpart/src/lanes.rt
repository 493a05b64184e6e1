//! Tests of 32 bytes at a time. Bit k of an answer is the answer at byte k.
ghost use Rattle.std.specs.Prelude.{◌≡◌, ◌+◌, ◌≤◌, ◌==◌, not, length, map, take, drop};
ghost use Rattle.std.specs.List.{zip};
ghost use Rattle.std.specs.Simd.Lanes.{mask_l};
ghost use Rattle.vax_strpart.specs.Kernels.{is_escape, is_hit, is_miss, translated};

use crate::marks::BLOCK;
use std::simd::prelude::*;

/// Which bytes equal one.
#[inline(always)]
pub(crate) fn equal(bytes: &[u8], at: usize, byte: u8) -> u64
    requires { at + 32 ≤ length bytes.now }
    ensures { result ≡ mask_l (map (λ x. x == byte) (take 32 (drop at bytes.now))) }
{
    u8x32::from_slice(&bytes[at..])
        .simd_eq(u8x32::splat(byte))
        .to_bitmask()
}

/// Which bytes don't equal one.
#[inline(always)]
pub(crate) fn unequal(bytes: &[u8], at: usize, byte: u8) -> u64
    requires { at + 32 ≤ length bytes.now }
    ensures { result ≡ mask_l (map (λ x. not (x == byte)) (take 32 (drop at bytes.now))) }
{
    u8x32::from_slice(&bytes[at..])
        .simd_ne(u8x32::splat(byte))
        .to_bitmask()
}

/// At which places two slices differ.
#[inline(always)]
pub(crate) fn different(a: &[u8], b: &[u8], at: usize) -> u64
    requires first { at + 32 ≤ length a.now }
    requires second { at + 32 ≤ length b.now }
    ensures { result ≡ mask_l
        (map (λ p. not (p.0 == p.1)) (zip (take 32 (drop at a.now)) (take 32 (drop at b.now)))) }
{
    u8x32::from_slice(&a[at..])
        .simd_ne(u8x32::from_slice(&b[at..]))
        .to_bitmask()
}

/// The table's bytes at 32 bytes.
#[inline(always)]
fn looked_up(bytes: &[u8], at: usize, table: &[u8; 256]) -> [u8; 32]
    requires { at + 32 ≤ length bytes.now }
    ensures { result ≡ translated table.now (take 32 (drop at bytes.now)) }
{
    let mut found = [0; BLOCK];
    for k in 0..BLOCK {
        found[k] = table[bytes[at + k] as usize];
    }
    found
}

/// At which bytes the table's byte has a bit of the mask.
#[inline(always)]
pub(crate) fn hits(bytes: &[u8], at: usize, table: &[u8; 256], mask: u8) -> u64
    requires { at + 32 ≤ length bytes.now }
    ensures { result ≡ mask_l (map (is_hit table.now mask) (take 32 (drop at bytes.now))) }
{
    let found = u8x32::from_array(looked_up(bytes, at, table)) & u8x32::splat(mask);
    found.simd_ne(u8x32::splat(0)).to_bitmask()
}

/// At which bytes the table's byte has no bit of the mask.
#[inline(always)]
pub(crate) fn misses(bytes: &[u8], at: usize, table: &[u8; 256], mask: u8) -> u64
    requires { at + 32 ≤ length bytes.now }
    ensures { result ≡ mask_l (map (is_miss table.now mask) (take 32 (drop at bytes.now))) }
{
    let found = u8x32::from_array(looked_up(bytes, at, table)) & u8x32::splat(mask);
    found.simd_eq(u8x32::splat(0)).to_bitmask()
}

/// At which bytes the table's byte is the escape.
#[inline(always)]
pub(crate) fn escapes(bytes: &[u8], at: usize, table: &[u8; 256], escape: u8) -> u64
    requires { at + 32 ≤ length bytes.now }
    ensures { result ≡ mask_l (map (is_escape table.now escape) (take 32 (drop at bytes.now))) }
{
    u8x32::from_array(looked_up(bytes, at, table))
        .simd_eq(u8x32::splat(escape))
        .to_bitmask()
}
