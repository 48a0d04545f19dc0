//! Numbers of a width at the front of bytes, each with the bytes after it.
ghost use Rattle.std.specs.Prelude.{◌≡◌, ◌^◌};
ghost use Rattle.std.specs.Int.{w16, w32, w64};
ghost use Rattle.formats.specs.Parts.{Finds};
ghost use Rattle.formats.specs.Numbers.{byte as byte_format, fixed};

/// A byte. None where there is none.
pub fn byte(bytes: &[u8]) -> Option<(u8, &[u8])>
    ensures { Finds (λ x. (x.0, x.1.now)) result (byte_format.reads bytes.now) }
{
    match bytes {
        [] => None,
        [first, rest @ ..] => Some((*first, rest)),
    }
}

/// A number in two bytes, least first. None where they aren't there.
pub fn fixed_u16(bytes: &[u8]) -> Option<(u16, &[u8])>
    ensures { Finds (λ x. (x.0, x.1.now)) result ((fixed w16 (2 ^ 16)).reads bytes.now) }
{
    if bytes.len() < 2 {
        return None;
    }
    let (front, rest) = bytes.split_at(2);
    let number = u16::from_le_bytes([front[0], front[1]]);
    Some((number, rest))
}

/// A number in four bytes, least first. None where they aren't there.
pub fn fixed_u32(bytes: &[u8]) -> Option<(u32, &[u8])>
    ensures { Finds (λ x. (x.0, x.1.now)) result ((fixed w32 (2 ^ 32)).reads bytes.now) }
{
    if bytes.len() < 4 {
        return None;
    }
    let (front, rest) = bytes.split_at(4);
    let number = u32::from_le_bytes([front[0], front[1], front[2], front[3]]);
    Some((number, rest))
}

/// A number in eight bytes, least first. None where they aren't there.
pub fn fixed_u64(bytes: &[u8]) -> Option<(u64, &[u8])>
    ensures { Finds (λ x. (x.0, x.1.now)) result ((fixed w64 (2 ^ 64)).reads bytes.now) }
{
    if bytes.len() < 8 {
        return None;
    }
    let (front, rest) = bytes.split_at(8);
    let number = u64::from_le_bytes([
        front[0], front[1], front[2], front[3], front[4], front[5], front[6], front[7],
    ]);
    Some((number, rest))
}
