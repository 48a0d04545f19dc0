//! A text between quotation marks (RFC 8259, section 7), as it is read.
ghost use Rattle.std.specs.Prelude.{◌≡◌, ◌++◌, ◌∷◌, ◌<◌, ◌+◌, ◌*◌, ◌^◌, List, ℕ, length, IsTrue, IsAscii, IfOk, IfErr, IfSome, MatchOption, OnOk, true, false, Some, None, string_bytes};
ghost use Rattle.std.specs.List.{list_all, prefix_len};
ghost use Rattle.std.specs.Char.Utf16.{is_high_surrogate, is_low_surrogate};
ghost use Rattle.adx_units.specs.JsonTexts.{is_bare as is_bare_byte};
ghost use Rattle.adx_units.specs.Scans.{Stops};
ghost use Rattle.adx_json.specs.Grammar.{is_short, short_value as short_value_of, is_hex as is_hex_digit, hex_value as hex_value_of, unpaired, low_text, unit_text, waits};
ghost use Rattle.adx_json.specs.Machine.{Frame, Role, in_text, characters, escaped, digits, stop_of, Tells, within_fault};
ghost use Rattle.adx_json.specs.Found.{FoundDigit, FoundEscape, FoundText, AddsRun, FoundUnit};

use crate::fault::Stop;
use crate::front::{after, ascii_text};
use crate::utf8::broken;
use adx_units::{OutOfMemory, Text, bare_len, unescaped_len, utf8_text};
use std::alloc::Global;

/// The text after its opening quotation mark, and the bytes after its closing one.
pub(crate) fn text_at(alloc: Global, bytes: &[u8]) -> Result<(Text, &[u8]), Stop>
    ensures found { IfOk result (λ x. FoundText bytes.now x.0 x.1.now) }
    ensures stops { IfErr result (λ e. (role : Role) (fs : List Frame) → Tells e (stop_of 64 (in_text role (characters None)) fs bytes.now)) }
{
    // Most texts are ASCII with no escape.
    let (run, behind) = unescaped_run(bytes);
    if let Some(rest) = after(behind, b'"') {
        return Ok((ascii_text(alloc, run)?, rest));
    }
    pieces_at(alloc, bytes)
}

/// The ASCII with no escape at the front, and what comes after it.
fn unescaped_run(bytes: &[u8]) -> (&[u8], &[u8])
    ensures whole { bytes.now ≡ result.0.now ++ result.1.now }
    ensures bare { IsTrue (list_all is_bare_byte result.0.now) }
    ensures ascii { IsAscii result.0.now }
{
    let len = unescaped_len(bytes);
    bytes.split_at(len)
}

/// A text piece by piece: runs of bytes that represent themselves, and escapes between them.
fn pieces_at(alloc: Global, bytes: &[u8]) -> Result<(Text, &[u8]), Stop>
    ensures found { IfOk result (λ x. FoundText bytes.now x.0 x.1.now) }
    ensures stops { IfErr result (λ e. (role : Role) (fs : List Frame) → Tells e (stop_of 64 (in_text role (characters None)) fs bytes.now)) }
{
    let mut out = String::new(alloc);
    let mut waiting = None;
    let mut left = bytes;
    'pieces: loop {
        let (run, behind) = bare_run(left);
        waiting = push_run(&mut out, waiting, run, behind)?;
        let Some((byte, rest)) = behind.split_first() else {
            return Err(Stop::Syntax(0));
        };
        if *byte == b'"' {
            push_unpaired(&mut out, waiting)?;
            return Ok((Text::from(out), rest));
        }
        if *byte != b'\\' {
            return Err(Stop::Syntax(behind.len()));
        }
        let (unit, rest) = escape_at(rest)?;
        waiting = push_unit(&mut out, waiting, unit)?;
        left = rest;
    }
}

/// What represents itself at the front, and what comes after it.
fn bare_run(bytes: &[u8]) -> (&[u8], &[u8])
    ensures whole { bytes.now ≡ result.0.now ++ result.1.now }
    ensures bare { IsTrue (list_all is_bare_byte result.0.now) }
    ensures stops { Stops is_bare_byte result.1.now }
{
    let len = bare_len(bytes);
    bytes.split_at(len)
}

/// Puts a run of bytes that represent themselves at the end, after a high surrogate that waits or after none.
fn push_run(
    out: &mut String,
    waiting: Option<u16>,
    run: &[u8],
    behind: &[u8],
) -> Result<Option<u16>, Stop>
    requires bare { IsTrue (list_all is_bare_byte run.now) }
    requires stops { Stops is_bare_byte behind.now }
    requires fits { length run.now + length behind.now < 2 ^ 64 }
    ensures found { IfOk result (λ w. AddsRun waiting run.now (string_bytes out.old) w (string_bytes out.new)) }
    ensures stops { IfErr result (λ e. (role : Role) (fs : List Frame) → Tells e (stop_of 64 (in_text role (characters None)) fs (run.now ++ behind.now))) }
{
    if run.is_empty() {
        return Ok(waiting);
    }
    push_unpaired(out, waiting)?;
    match utf8_text(run) {
        Some(text) => {
            out.push_str(text)?;
            Ok(None)
        }
        None => Err(Stop::Utf8(broken(run) + behind.len())),
    }
}

/// Puts what a high surrogate with no partner represents at the end, if one waits.
fn push_unpaired(out: &mut String, waiting: Option<u16>) -> Result<(), OutOfMemory>
    ensures { OnOk result (string_bytes out.new ≡ string_bytes out.old ++ unpaired waiting) }
{
    if waiting.is_some() {
        out.push_str("\u{fffd}")?;
    }
    Ok(())
}

fn is_high(unit: u16) -> bool
    ensures { result ≡ is_high_surrogate unit }
{
    0xD800 <= unit && unit < 0xDC00
}

fn is_low(unit: u16) -> bool
    ensures { result ≡ is_low_surrogate unit }
{
    0xDC00 <= unit && unit < 0xE000
}

/// Puts a code unit's text at the end, after a high surrogate that waits or after none. Answers a high surrogate that waits
/// now.
fn push_unit(out: &mut String, waiting: Option<u16>, unit: u16) -> Result<Option<u16>, OutOfMemory>
    requires { IfSome waiting (λ h. IsTrue (is_high_surrogate h)) }
    ensures text { OnOk result (string_bytes out.new ≡ string_bytes out.old ++ unit_text waiting unit) }
    ensures waits { IfOk result (λ w. w ≡ waits unit) }
{
    if is_low(unit) {
        push_low(out, waiting, unit)?;
        return Ok(None);
    }
    push_unpaired(out, waiting)?;
    if is_high(unit) {
        return Ok(Some(unit));
    }
    let c = char::from_u32(u32::from(unit)).unwrap();
    out.push(c)?;
    Ok(None)
}

/// Puts the text of a low surrogate at the end: a pair's with the one that waits, or U+FFFD.
fn push_low(out: &mut String, waiting: Option<u16>, low: u16) -> Result<(), OutOfMemory>
    requires high { IfSome waiting (λ h. IsTrue (is_high_surrogate h)) }
    requires low { IsTrue (is_low_surrogate low) }
    ensures { OnOk result (string_bytes out.new ≡ string_bytes out.old ++ low_text waiting low) }
{
    let Some(high) = waiting else {
        out.push_str("\u{fffd}")?;
        return Ok(());
    };
    let code = 0x1_0000 + (u32::from(high) - 0xD800) * 0x400 + (u32::from(low) - 0xDC00);
    let c = char::from_u32(code).unwrap();
    out.push(c)?;
    Ok(())
}

/// The code unit of an escape after its backslash, and the bytes after it.
fn escape_at(bytes: &[u8]) -> Result<(u16, &[u8]), Stop>
    ensures found { IfOk result (λ x. FoundEscape bytes.now x.0 x.1.now) }
    ensures stops { IfErr result (λ e. (role : Role) (fs : List Frame) → Tells e (stop_of 64 (in_text role escaped) fs bytes.now)) }
{
    let Some((byte, rest)) = bytes.split_first() else {
        return Err(Stop::Syntax(0));
    };
    if let Some(unit) = short_value(*byte) {
        return Ok((unit, rest));
    }
    if *byte != b'u' {
        return Err(fault_within(*byte, bytes.len()));
    }
    let (unit, rest) = unit_at(rest)?;
    Ok((unit, rest))
}

/// What a backslash and one character represent. None where no such escape is.
fn short_value(byte: u8) -> Option<u16>
    ensures { MatchOption result (is_short byte ≡ false) (λ u. (is_short byte ≡ true) × (u ≡ short_value_of byte)) }
{
    match byte {
        b'"' | b'\\' | b'/' => Some(u16::from(byte)),
        b'b' => Some(8),
        b'f' => Some(12),
        b'n' => Some(10),
        b'r' => Some(13),
        b't' => Some(9),
        _ => None,
    }
}

/// The fault at a byte that can't come in an escape, where so many bytes are left.
fn fault_within(byte: u8, left: usize) -> Stop
    ensures { result ≡ within_fault escaped left byte }
{
    if 128 <= byte {
        Stop::Utf8(left)
    } else {
        Stop::Syntax(left)
    }
}

/// The code unit of four hexadecimal digits, and the bytes after them.
fn unit_at(bytes: &[u8]) -> Result<(u16, &[u8]), Stop>
    ensures found { IfOk result (λ x. FoundUnit bytes.now x.0 x.1.now) }
    ensures stops { IfErr result (λ e. (role : Role) (fs : List Frame) → Tells e (stop_of 64 (in_text role (digits 3)) fs bytes.now)) }
{
    let (a, rest) = digit_at(bytes)?;
    let (b, rest) = digit_at(rest)?;
    let (c, rest) = digit_at(rest)?;
    let (d, rest) = digit_at(rest)?;
    Ok((4096 * a + 256 * b + 16 * c + d, rest))
}

/// The hexadecimal digit at the front, and the bytes after it.
fn digit_at(bytes: &[u8]) -> Result<(u16, &[u8]), Stop>
    ensures found { IfOk result (λ x. FoundDigit bytes.now x.0 x.1.now) }
    ensures small { IfOk result (λ x. x.0 < 16) }
    ensures stops { IfErr result (λ e. (role : Role) (fs : List Frame) (k : ℕ) → Tells e (stop_of 64 (in_text role (digits k)) fs bytes.now)) }
{
    let Some((byte, rest)) = bytes.split_first() else {
        return Err(Stop::Syntax(0));
    };
    if !is_hex(*byte) {
        return Err(fault_within(*byte, bytes.len()));
    }
    Ok((hex_value(*byte), rest))
}

fn is_hex(byte: u8) -> bool
    ensures { result ≡ is_hex_digit byte }
{
    byte.is_ascii_digit() || (b'A' <= byte && byte <= b'F') || (b'a' <= byte && byte <= b'f')
}

fn hex_value(byte: u8) -> u16
    requires { IsTrue (is_hex_digit byte) }
    ensures value { result ≡ hex_value_of byte }
    ensures small { result < 16 }
{
    let value = if byte <= b'9' {
        byte - b'0'
    } else if byte <= b'F' {
        byte - b'A' + 10
    } else {
        byte - b'a' + 10
    };
    u16::from(value)
}
