//! Bytes that are texts, or aren't.
use adx_units::{OutOfMemory, utf8_text};

/// `y` where bytes are a text, these bytes; `n` where they are none, and `?` where std says otherwise.
fn letter_of(bytes: &[u8]) -> &'static str {
    match (utf8_text(bytes), std::str::from_utf8(bytes)) {
        (Some(text), Ok(wanted)) if text == wanted => "y",
        (None, Err(_)) => "n",
        _ => "?",
    }
}

/// Adds a letter for each front of bytes: the first has none of them, and the last all.
pub(crate) fn push_fronts(out: &mut String, bytes: &[u8]) -> Result<(), OutOfMemory> {
    for len in 0..bytes.len() {
        out.push_str(letter_of(&bytes[..len]))?;
    }
    Ok(out.push_str(letter_of(bytes))?)
}
