//! Numbers in groups of 7 bits, least first, each byte but the last with its top bit set.
ghost use Rattle.std.specs.Prelude.{◌≡◌, ◌≤◌, ◌<◌, ◌+◌, ◌-◌, ◌*◌, ◌^◌, ◌++◌, length, SomeIff};
ghost use Rattle.formats.specs.Parts.{Finds};
ghost use Rattle.formats.specs.Numbers.{grouped as grouped_format, groups_below, groups_bytes};

use arrayvec::ArrayVec;

/// The most groups of a number below 2^64.
const MOST_GROUPS: u32 = 10;

/// The bytes of a number.
pub type Groups = ArrayVec<u8, 10>;

/// A number below 2^64. None where the bytes don't begin with one in its one spelling.
#[inline(always)]
pub fn grouped(bytes: &[u8]) -> Option<(u64, &[u8])>
    ensures { Finds (λ x. (x.0, x.1.now)) result ((grouped_format (2 ^ 64)).reads bytes.now) }
{
    // Most numbers are one group.
    if let Some((first, rest)) = bytes.split_first() {
        if *first < 128 {
            return Some((u64::from(*first), rest));
        }
    }
    groups_at(bytes, MOST_GROUPS)
}

/// A number below 2^64 in at most so many groups.
fn groups_at(bytes: &[u8], most: u32) -> Option<(u64, &[u8])>
    ensures { Finds (λ x. (x.0, x.1.now)) result (groups_below most (2 ^ 64) bytes.now) }
{
    let Some(less) = most.checked_sub(1) else {
        return None;
    };
    let Some((first, rest)) = bytes.split_first() else {
        return None;
    };
    let group = *first;
    if group < 128 {
        return Some((u64::from(group), rest));
    }
    let Some((high, after)) = groups_at(rest, less) else {
        return None;
    };
    let Some(value) = with_group(group, high) else {
        return None;
    };
    Some((value, after))
}

/// The number of a group before a higher part. None where that is 0, or the number is 2^64 or more.
fn with_group(group: u8, high: u64) -> Option<u64>
    requires { 128 ≤ group }
    ensures { SomeIff result ((1 ≤ high) × ((group - 128) + 128 * high < 2 ^ 64)) ((group - 128) + 128 * high) }
{
    if high == 0 {
        return None;
    }
    match high.checked_mul(128) {
        Some(value) => value.checked_add(u64::from(group - 128)),
        None => None,
    }
}

/// The spelling of a number.
pub fn groups(n: u64) -> Groups
    ensures { result.items ≡ groups_bytes 10 n }
{
    let mut bytes = ArrayVec::new();
    push_groups(&mut bytes, n);
    bytes
}

/// Adds the spelling of a number to an array with room for ten bytes more.
pub fn push_groups<const N: usize>(out: &mut ArrayVec<u8, N>, n: u64)
    requires { length out.old.items + 10 ≤ N }
    ensures { out.new.items ≡ out.old.items ++ groups_bytes 10 n }
{
    let mut rest = n;
    while rest >= 128 {
        out.push(128 + (rest % 128) as u8);
        rest /= 128;
    }
    out.push(rest as u8);
}
