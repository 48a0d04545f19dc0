//! A row: a reader, a text, and what is said of it.
use adx_units::OutOfMemory;
use std::alloc::Global;

/// A row.
#[derive(Drop)]
pub(crate) struct Row<'a> {
    pub(crate) reader: &'a str,
    pub(crate) text: Vec<u8>,
    pub(crate) said: &'a str,
}

/// The byte at the front of a piece that stood after a backslash, and how many letters spell it.
fn escaped(piece: &str) -> (u8, usize) {
    match piece.as_bytes() {
        [b'n', ..] => (b'\n', 1),
        [b'r', ..] => (b'\r', 1),
        [b't', ..] => (b'\t', 1),
        _ => (
            u8::from_str_radix(piece.get(1..3).unwrap_or(""), 16).unwrap_or(b'?'),
            3,
        ),
    }
}

/// The bytes of a text with escapes. A backslash is written `\x5c`.
fn unescaped(alloc: Global, text: &str) -> Result<Vec<u8>, OutOfMemory> {
    let mut out = Vec::new(alloc);
    let (first, rest) = text.split_once('\\').unwrap_or((text, ""));
    out.extend_from_slice(first.as_bytes())?;
    if first.len() < text.len() {
        for piece in rest.split('\\') {
            let (byte, len) = escaped(piece);
            out.push(byte)?;
            out.extend_from_slice(piece.get(len..).unwrap_or("").as_bytes())?;
        }
    }
    Ok(out)
}

impl<'a> Row<'a> {
    /// The row of a line. Where the line is none, its reader is unknown.
    pub(crate) fn of(alloc: Global, line: &'a str) -> Result<Row<'a>, OutOfMemory> {
        let (front, said) = line.rsplit_once(" => ").unwrap_or((line, ""));
        let (name, text) = front.split_once(' ').unwrap_or((front, ""));
        match name.strip_prefix('\\') {
            Some(reader) => Ok(Row {
                reader,
                text: unescaped(alloc, text)?,
                said,
            }),
            None => Ok(Row {
                reader: name,
                text: Vec::from_slice(alloc, text.as_bytes())?,
                said,
            }),
        }
    }
}
