//! The bytes of ASCII at the front of bytes.
ghost use Rattle.std.specs.Prelude.{◌≡◌, ◌+◌, ◌≤◌, length, drop, map};
ghost use Rattle.std.specs.List.{prefix_len};
ghost use Rattle.std.specs.Simd.Lanes.{mask_l};
ghost use Rattle.adx_units.specs.Ascii.{is_above_ascii, is_in_ascii};

use std::simd::prelude::*;

/// A bit for each byte above ASCII.
#[inline(always)]
fn above(bytes: u8x16) -> u64
    ensures { result ≡ mask_l (map is_above_ascii bytes) }
{
    bytes.simd_ge(u8x16::splat(128)).to_bitmask()
}

/// The same of half as many bytes.
#[inline(always)]
fn above_in_half(bytes: u8x8) -> u64
    ensures { result ≡ mask_l (map is_above_ascii bytes) }
{
    bytes.simd_ge(u8x8::splat(128)).to_bitmask()
}

/// The end of the ASCII from a place on, byte by byte.
fn end_from(bytes: &[u8], from: usize) -> usize
    requires { from ≤ length bytes.now }
    ensures value { result ≡ from + prefix_len is_in_ascii (drop from bytes.now) }
    ensures bound { result ≤ length bytes.now }
{
    let mut at = from;
    while at < bytes.len() && bytes[at] < 128 {
        at += 1;
    }
    at
}

/// The same for the last bytes, of which half a vector is looked through at once.
#[inline(always)]
fn end_of_last(bytes: &[u8], from: usize) -> usize
    requires { from ≤ length bytes.now }
    ensures value { result ≡ from + prefix_len is_in_ascii (drop from bytes.now) }
    ensures bound { result ≤ length bytes.now }
{
    if bytes.len() - from < 8 {
        return end_from(bytes, from);
    }
    let found = above_in_half(u8x8::from_slice(&bytes[from..]));
    if found != 0 {
        return from + found.trailing_zeros() as usize;
    }
    end_from(bytes, from + 8)
}

/// How many bytes at the front are ASCII: none is above 127, and none of those goes on with the run.
#[inline(always)]
pub(crate) fn ascii_len(bytes: &[u8]) -> usize
    ensures value { result ≡ prefix_len is_in_ascii bytes.now }
    ensures bound { result ≤ length bytes.now }
{
    let mut at = 0;
    while bytes.len() - at >= 16 {
        let found = above(u8x16::from_slice(&bytes[at..]));
        if found != 0 {
            return at + found.trailing_zeros() as usize;
        }
        at += 16;
    }
    end_of_last(bytes, at)
}
