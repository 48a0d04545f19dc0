//! The bytes of ASCII that need no escape in a JSON text.
ghost use Rattle.std.specs.Prelude.{◌≡◌, ◌+◌, ◌≤◌, length, drop, map};
ghost use Rattle.std.specs.List.{prefix_len};
ghost use Rattle.std.specs.Simd.Lanes.{mask_l};
ghost use Rattle.adx_units.specs.Unescaped.{is_unescaped, is_stop};

use std::simd::prelude::*;

/// A bit for each byte that isn't unescaped ASCII.
#[inline(always)]
fn stops(bytes: u8x16) -> u64
    ensures { result ≡ mask_l (map is_stop bytes) }
{
    (bytes.simd_eq(u8x16::splat(b'"'))
        | bytes.simd_eq(u8x16::splat(b'\\'))
        | (bytes - u8x16::splat(32)).simd_ge(u8x16::splat(96))).to_bitmask()
}

/// The end of the run from a place on, byte by byte.
fn end_from(bytes: &[u8], from: usize) -> usize
    requires { from ≤ length bytes.now }
    ensures { result ≡ from + prefix_len is_unescaped (drop from bytes.now) }
{
    let mut at = from;
    while at < bytes.len()
        && bytes[at] >= 32
        && bytes[at] < 128
        && bytes[at] != b'"'
        && bytes[at] != b'\\'
    {
        at += 1;
    }
    at
}

/// How many bytes at the front are ASCII that a JSON text (RFC 8259, section 7) may have unescaped: none is a control
/// byte, a quotation mark, a backslash or above 127, and none of those goes on with the run.
#[inline(always)]
pub fn unescaped_len(bytes: &[u8]) -> usize
    ensures value { result ≡ prefix_len is_unescaped bytes.now }
    ensures bound { result ≤ length bytes.now }
{
    let mut at = 0;
    while bytes.len() - at >= 16 {
        let found = stops(u8x16::from_slice(&bytes[at..]));
        if found != 0 {
            return at + found.trailing_zeros() as usize;
        }
        at += 16;
    }
    end_from(bytes, at)
}
