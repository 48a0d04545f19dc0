//! A text between quotation marks, with the escapes that it needs (RFC 8259, section 7).
ghost use Rattle.std.specs.Prelude.{◌≡◌, ◌<◌, ◌≤◌, ◌++◌, ◌∷◌, [], List, ℕ, length, IsTrue, OnOk, false, string_bytes};
ghost use Rattle.std.specs.List.{list_all, prefix_len, flat_map};
ghost use Rattle.adx_units.specs.JsonTexts.{hex_digit as hex_digit_of, control_escape, escape, text_spelling};
ghost use Rattle.adx_units.specs.JsonTexts.{is_bare as is_bare_byte};
ghost use Rattle.adx_units.specs.Scans.{Stops};

use crate::memory::OutOfMemory;
use crate::unescaped::unescaped_len;

/// Puts the text at the end, between quotation marks.
pub fn push_text(out: &mut String, text: &str) -> Result<(), OutOfMemory>
    ensures { OnOk result (string_bytes out.new ≡ string_bytes out.old ++ text_spelling text.now) }
{
    out.push_str("\"")?;
    push_escaped(out, text)?;
    out.push_str("\"")?;
    Ok(())
}

fn push_escaped(out: &mut String, text: &str) -> Result<(), OutOfMemory>
    ensures { OnOk result (string_bytes out.new ≡ string_bytes out.old ++ flat_map escape text.now) }
{
    let mut left = text;
    'runs: loop {
        let (run, behind) = bare_run(left);
        out.push_str(run)?;
        let Some((byte, _)) = behind.as_bytes().split_first() else {
            return Ok(());
        };
        push_escape(out, *byte)?;
        left = &behind[1..];
    }
}

fn is_bare(byte: u8) -> bool
    ensures { result ≡ is_bare_byte byte }
{
    !(byte == b'"' || byte == b'\\' || byte < 32)
}

/// How many bytes at the front need no escape.
pub fn bare_len(bytes: &[u8]) -> usize
    ensures { result ≡ prefix_len is_bare_byte bytes.now }
{
    let front = unescaped_len(bytes);
    let (_, rest) = bytes.split_at(front);
    front + further_len(rest)
}

/// The same byte by byte.
fn further_len(bytes: &[u8]) -> usize
    ensures value { result ≡ prefix_len is_bare_byte bytes.now }
    ensures bound { result ≤ length bytes.now }
{
    bytes.iter().take_while(|byte| is_bare(**byte)).count()
}

/// What needs no escape at the front, and what stands behind it.
fn bare_run(text: &str) -> (&str, &str)
    ensures whole { text.now ≡ result.0.now ++ result.1.now }
    ensures bare { IsTrue (list_all is_bare_byte result.0.now) }
    ensures stops { Stops is_bare_byte result.1.now }
{
    let len = bare_len(text.as_bytes());
    text.split_at(len)
}

/// Puts the escape of a byte at the end.
fn push_escape(out: &mut String, byte: u8) -> Result<(), OutOfMemory>
    requires { is_bare_byte byte ≡ false }
    ensures { OnOk result (string_bytes out.new ≡ string_bytes out.old ++ escape byte) }
{
    match byte {
        b'"' => out.push_str("\\\"")?,
        b'\\' => out.push_str("\\\\")?,
        8 => out.push_str("\\b")?,
        9 => out.push_str("\\t")?,
        10 => out.push_str("\\n")?,
        12 => out.push_str("\\f")?,
        13 => out.push_str("\\r")?,
        _ => push_control(out, byte)?,
    }
    Ok(())
}

fn push_control(out: &mut String, byte: u8) -> Result<(), OutOfMemory>
    requires { byte < 32 }
    ensures { OnOk result (string_bytes out.new ≡ string_bytes out.old ++ control_escape byte) }
{
    out.push_str("\\u00")?;
    out.push(hex_digit(byte / 16))?;
    out.push(hex_digit(byte % 16))?;
    Ok(())
}

fn hex_digit(n: u8) -> char
    requires { n < 16 }
    ensures digit { result ≡ hex_digit_of n }
    ensures ascii { result < 128 }
{
    if n < 10 {
        char::from(b'0' + n)
    } else {
        char::from(b'a' - 10 + n)
    }
}
