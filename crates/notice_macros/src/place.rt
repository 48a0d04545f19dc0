//! Where a template is from, and how a text is written there.
ghost use Rattle.std.specs.Prelude.{◌≡◌, ◌++◌, OnOk, string_bytes};
ghost use Rattle.std.specs.List.{flat_map};
ghost use Rattle.notice_macros.specs.Escaped.{formed, placed, url_byte};

use crate::macros::Form;
use adx_units::OutOfMemory;
use base64::engine::general_purpose::STANDARD;
use percent_encoding::{AsciiSet, NON_ALPHANUMERIC, ascii_set, percent_encode};
use std::alloc::Global;

/// What a template is, which decides how values are written into it.
#[derive(Clone, Copy, Debug, PartialEq, Eq)]
pub(crate) enum Place {
    /// A notice URL: values are percent-encoded.
    Url,
    /// Markup: values are as they are.
    Markup,
}

/// The ASCII bytes that are escaped in a URL: all but the unreserved characters of RFC 3986.
const RESERVED: AsciiSet = ascii_set!(
    NON_ALPHANUMERIC
        .remove(b'-')
        .remove(b'.')
        .remove(b'_')
        .remove(b'~')
);

/// Puts a text at the end, percent-encoded (RFC 3986, section 2): every byte but letters, digits, `-`, `.`,
/// `_` and `~` becomes `%` and two upper-case hexadecimal digits.
pub fn push_percent_encoded(out: &mut String, text: &str) -> Result<(), OutOfMemory>
    ensures { OnOk result (string_bytes out.new ≡ string_bytes out.old ++ flat_map url_byte text.now) }
{
    percent_encode(text.as_bytes(), RESERVED).append_to(out)?;
    Ok(())
}

/// Puts a text at the end as its place wants it.
fn push_placed(out: &mut String, place: Place, text: &str) -> Result<(), OutOfMemory>
    ensures { OnOk result (string_bytes out.new ≡ string_bytes out.old ++ placed place text.now) }
{
    match place {
        Place::Url => push_percent_encoded(out, text)?,
        Place::Markup => out.push_str(text)?,
    }
    Ok(())
}

/// Puts the Base64 of a text at the end as its place wants it.
fn push_coded(alloc: Global, out: &mut String, place: Place, text: &str) -> Result<(), OutOfMemory>
    ensures { OnOk result (string_bytes out.new ≡ string_bytes out.old ++ placed place (formed Form.Base64 text.now)) }
{
    match place {
        Place::Url => {
            let coded = STANDARD.encode(alloc, text.as_bytes())?;
            push_percent_encoded(out, coded.as_str())?;
        }
        Place::Markup => STANDARD.encode_string(text.as_bytes(), out)?,
    }
    Ok(())
}

/// Puts a text at the end, in a form and as its place wants it.
pub(crate) fn push_formed(
    alloc: Global,
    out: &mut String,
    place: Place,
    form: Form,
    text: &str,
) -> Result<(), OutOfMemory>
    ensures { OnOk result (string_bytes out.new ≡ string_bytes out.old ++ placed place (formed form text.now)) }
{
    match form {
        Form::Plain => push_placed(out, place, text),
        Form::Base64 => push_coded(alloc, out, place, text),
    }
}
