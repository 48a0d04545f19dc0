//! Names in their compact spelling (RFC 8259, section 7, with the shortest escapes).
ghost use Rattle.std.specs.Prelude.{◌≡◌, ◌++◌, ◌∷◌, IsTrue, length};
ghost use Rattle.std.specs.List.{list_all, prefix_len};
ghost use Rattle.adx_units.specs.JsonTexts.{is_bare as is_bare_byte};
ghost use Rattle.adx_units.specs.Scans.{Stops};
ghost use Rattle.formats.specs.Parts.{Finds};
ghost use Rattle.bid_record.specs.Texts.{Gives, hex_value as hex_value_of, is_nameless as is_nameless_byte, control_of, marked as marked_byte, two_digits_at, control_at, escaped_at, spelled_at, body_at, named_of, name_body_at, name_at};

use crate::fault::Misfit;
use adx_units::Id;
use formats::byte_behind;
use std::alloc::Global;
use std::str;

/// The name behind a space, and the bytes behind it.
#[tactic(auto, unfolding(crate::specs::Texts::name_at))]
pub(crate) fn name_part(alloc: Global, bytes: &[u8]) -> Result<(Id, &[u8]), Misfit>
    ensures { Gives (λ x. (x.0, x.1.now)) result (name_at bytes.now) }
{
    let Some(quoted) = byte_behind(bytes, b' ') else {
        return Err(Misfit::Form);
    };
    let Some(body) = byte_behind(quoted, b'"') else {
        return Err(Misfit::Form);
    };
    name_body(alloc, body)
}

/// The name whose body stands at the front, and the bytes behind its quotation mark.
fn name_body(alloc: Global, bytes: &[u8]) -> Result<(Id, &[u8]), Misfit>
    ensures { Gives (λ x. (x.0, x.1.now)) result (name_body_at bytes.now) }
{
    let (run, behind) = bare_run(bytes);
    match byte_behind(behind, b'"') {
        Some(rest) => bare_name(alloc, bytes, run, rest),
        None => escaped_name(alloc, bytes),
    }
}

/// The name of a body in which no byte is escaped.
fn bare_name<'a>(
    alloc: Global,
    bytes: &[u8],
    run: &[u8],
    rest: &'a [u8],
) -> Result<(Id, &'a [u8]), Misfit>
    requires whole { bytes.now ≡ run.now ++ 34 ∷ rest.now }
    requires bare { IsTrue (list_all is_bare_byte run.now) }
    ensures { Gives (λ x. (x.0, x.1.now)) result (name_body_at bytes.now) }
{
    match named(alloc, run) {
        Ok(name) => Ok((name, rest)),
        Err(misfit) => Err(misfit),
    }
}

/// The name of a body with escapes.
#[tactic(auto, unfolding(crate::specs::Texts::name_body_at))]
fn escaped_name(alloc: Global, bytes: &[u8]) -> Result<(Id, &[u8]), Misfit>
    ensures { Gives (λ x. (x.0, x.1.now)) result (name_body_at bytes.now) }
{
    let (text, rest) = body(alloc, bytes)?;
    let name = named(alloc, text.as_slice())?;
    Ok((name, rest))
}

/// The bytes as a name.
#[tactic(auto, unfolding(crate::specs::Texts::named_of))]
fn named(alloc: Global, bytes: &[u8]) -> Result<Id, Misfit>
    ensures { Gives (λ name. name) result (named_of bytes.now) }
{
    let Ok(text) = str::from_utf8(bytes) else {
        return Err(Misfit::Form);
    };
    match Id::of(alloc, text) {
        Ok(Some(name)) => Ok(name),
        Ok(None) => Err(Misfit::Form),
        Err(_) => Err(Misfit::Memory),
    }
}

fn is_bare(byte: u8) -> bool
    ensures { result ≡ is_bare_byte byte }
{
    !(byte == b'"' || byte == b'\\' || byte < 32)
}

fn bare_len(bytes: &[u8]) -> usize
    ensures { result ≡ prefix_len is_bare_byte bytes.now }
{
    bytes.iter().take_while(|byte| is_bare(**byte)).count()
}

/// The bytes at the front that need no escape, and the bytes behind them.
fn bare_run(bytes: &[u8]) -> (&[u8], &[u8])
    ensures whole { bytes.now ≡ result.0.now ++ result.1.now }
    ensures bare { IsTrue (list_all is_bare_byte result.0.now) }
{
    let len = bare_len(bytes);
    bytes.split_at(len)
}

/// The bytes of a text's body, and the bytes behind its quotation mark.
fn body(alloc: Global, bytes: &[u8]) -> Result<(Vec<u8>, &[u8]), Misfit>
    ensures { Gives (λ x. (x.0.items, x.1.now)) result (body_at (length bytes.now) bytes.now) }
{
    let mut text = Vec::new(alloc);
    let mut left = bytes;
    'body: loop {
        if let Some(rest) = byte_behind(left, b'"') {
            return Ok((text, rest));
        }
        let Some((byte, behind)) = spelled(left) else {
            return Err(Misfit::Form);
        };
        text.push(byte)?;
        left = behind;
    }
}

/// The byte at the front of a body, as it is spelled, and the bytes behind it.
#[tactic(auto, unfolding(crate::specs::Texts::spelled_at))]
fn spelled(bytes: &[u8]) -> Option<(u8, &[u8])>
    ensures { Finds (λ x. (x.0, x.1.now)) result (spelled_at bytes.now) }
{
    match bytes {
        [] => None,
        [b'\\', rest @ ..] => escaped(rest),
        [first, rest @ ..] => {
            if *first == b'"' || *first < 32 {
                None
            } else {
                Some((*first, rest))
            }
        }
    }
}

/// The byte of an escape behind its backslash.
#[tactic(auto, unfolding(crate::specs::Texts::escaped_at))]
fn escaped(bytes: &[u8]) -> Option<(u8, &[u8])>
    ensures { Finds (λ x. (x.0, x.1.now)) result (escaped_at bytes.now) }
{
    match bytes {
        [] => None,
        [b'u', rest @ ..] => control(rest),
        [mark, rest @ ..] => match marked(*mark) {
            Some(byte) => Some((byte, rest)),
            None => None,
        },
    }
}

/// The byte that a mark behind a backslash stands for.
fn marked(mark: u8) -> Option<u8>
    ensures { result ≡ marked_byte mark }
{
    match mark {
        b'"' => Some(b'"'),
        b'\\' => Some(b'\\'),
        b'b' => Some(8),
        b't' => Some(9),
        b'n' => Some(10),
        b'f' => Some(12),
        b'r' => Some(13),
        _ => None,
    }
}

/// The control byte of two zeros and two digits.
#[tactic(auto, unfolding(crate::specs::Texts::control_at))]
fn control(bytes: &[u8]) -> Option<(u8, &[u8])>
    ensures { Finds (λ x. (x.0, x.1.now)) result (control_at bytes.now) }
{
    let rest = byte_behind(bytes, b'0')?;
    let rest = byte_behind(rest, b'0')?;
    two_digits(rest)
}

#[tactic(auto, unfolding(crate::specs::Texts::two_digits_at))]
fn two_digits(bytes: &[u8]) -> Option<(u8, &[u8])>
    ensures { Finds (λ x. (x.0, x.1.now)) result (two_digits_at bytes.now) }
{
    match bytes {
        [high, low, rest @ ..] => match control_byte(*high, *low) {
            Some(byte) => Some((byte, rest)),
            None => None,
        },
        _ => None,
    }
}

fn control_byte(high: u8, low: u8) -> Option<u8>
    ensures { result ≡ control_of high low }
{
    let high = hex_value(high);
    let low = hex_value(low);
    if high < 2 && low < 16 && is_nameless(16 * high + low) {
        Some(16 * high + low)
    } else {
        None
    }
}

/// The number of a lower-case hexadecimal digit, or 16.
fn hex_value(digit: u8) -> u8
    ensures { result ≡ hex_value_of digit }
{
    match digit {
        b'0'..=b'9' => digit - b'0',
        b'a'..=b'f' => digit - 87,
        _ => 16,
    }
}

/// Whether a byte is a control byte that has no letter of its own.
fn is_nameless(byte: u8) -> bool
    ensures { result ≡ is_nameless_byte byte }
{
    byte < 32 && !(byte == 8 || byte == 9 || byte == 10 || byte == 12 || byte == 13)
}
