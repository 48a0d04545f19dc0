//! The path and the query of a request's target.
ghost use Rattle.std.specs.Prelude.{◌≡◌, ◌<◌, ◌≤◌, List, ℕ, length, position, option_map, true, All, IfOk};
ghost use Rattle.std.specs.Borrow.{Bor};
ghost use Rattle.std.specs.List.{position_or_len};
ghost use Rattle.std.specs.Cow.{cow_str_bytes};
ghost use Rattle.form_urlencoded.specs.Form.{IsPlain};
ghost use Rattle.adx_http.specs.Targets.{is_end, is_question_mark, rest_of, path_of, query_of, decoded, first_of, raw_value_of, value_of};

use adx_units::OutOfMemory;
use form_urlencoded::{decode, raw_pairs};
use std::alloc::Global;
use std::borrow::CowStr;

/// What a request's target names (RFC 9112, section 3.2).
#[derive(Clone, Copy, Debug)]
pub struct Target<'a> {
    /// The path, not decoded; `/` where the target has none.
    pub path: &'a [u8],
    /// What comes after the first question mark, as `query_value` and `query_values` read it.
    pub query: &'a [u8],
}

/// The place of the first slash or question mark.
fn slash_or_mark_in(bytes: &[u8]) -> Option<usize>
    ensures { result ≡ position is_end bytes.now }
{
    bytes.iter().position(|b| *b == b'/' || *b == b'?')
}

/// The place of the first question mark.
fn mark_in(bytes: &[u8]) -> Option<usize>
    ensures { result ≡ position is_question_mark bytes.now }
{
    bytes.iter().position(|b| *b == b'?')
}

/// Where an authority ends.
fn end_of_authority(bytes: &[u8]) -> usize
    ensures place { result ≡ position_or_len is_end bytes.now }
    ensures within { result ≤ length bytes.now }
{
    match slash_or_mark_in(bytes) {
        Some(place) => place,
        None => bytes.len(),
    }
}

/// Where a path ends.
fn end_of_path(bytes: &[u8]) -> usize
    ensures place { result ≡ position_or_len is_question_mark bytes.now }
    ensures within { result ≤ length bytes.now }
{
    match mark_in(bytes) {
        Some(place) => place,
        None => bytes.len(),
    }
}

/// The target without `http://` and the authority after it, where it begins so.
fn without_authority(target: &[u8]) -> &[u8]
    ensures { result.now ≡ rest_of target.now }
{
    let (scheme, rest) = target.split_at(target.len().min(7));
    if !scheme.eq_ignore_ascii_case(b"http://") {
        return target;
    }
    let (_, path) = rest.split_at(end_of_authority(rest));
    path
}

/// What a target names: its path and its query.
pub fn read_target(target: &[u8]) -> Target<'_>
    ensures path { result.path.now ≡ path_of target.now }
    ensures query { result.query.now ≡ query_of target.now }
{
    let rest = without_authority(target);
    let end = end_of_path(rest);
    let (path, behind) = rest.split_at(end);
    let (_, query) = behind.split_at(behind.len().min(1));
    Target {
        path: if path.is_empty() { b"/" } else { path },
        query,
    }
}

/// The value, where no earlier one was found and its name is the wanted one.
fn first_value<'a>(found: Option<&'a [u8]>, is_named: bool, value: &'a [u8]) -> Option<&'a [u8]>
    ensures { result ≡ first_of found.entry is_named value.entry }
{
    match found {
        Some(earlier) => Some(earlier),
        None if is_named => Some(value),
        None => None,
    }
}

/// Whether bytes are ASCII that represents itself in a form: none is a plus sign or begins an escape.
fn are_plain(bytes: &[u8]) -> bool
    ensures plain { result ≡ true → All IsPlain bytes.now }
    ensures ascii { result ≡ true → All (λ b. b < 128) bytes.now }
{
    bytes
        .iter()
        .all(|byte| *byte < 128 && *byte != b'+' && *byte != b'%')
}

/// A name or a value of a query as text. Most represent themselves, which is seen at once.
fn as_text(alloc: Global, bytes: &[u8]) -> Result<CowStr<'_, Global>, OutOfMemory>
    ensures { IfOk result (λ text. cow_str_bytes text ≡ decoded bytes.now) }
{
    if are_plain(bytes) {
        return Ok(CowStr::Borrowed(unsafe { str::from_utf8_unchecked(bytes) }));
    }
    Ok(decode(alloc, bytes)?)
}

/// The values of the first pairs with these names in a query, which aren't decoded.
fn raw_values<'a>(
    alloc: Global,
    query: &'a [u8],
    one: &str,
    other: &str,
) -> Result<(Option<&'a [u8]>, Option<&'a [u8]>), OutOfMemory>
    ensures one { IfOk result (λ found. option_map (λ (v : Bor (List ℕ)). v.now) found.0 ≡ raw_value_of one.now query.now) }
    ensures other { IfOk result (λ found. option_map (λ (v : Bor (List ℕ)). v.now) found.1 ≡ raw_value_of other.now query.now) }
{
    let mut first = None;
    let mut second = None;
    let mut pairs = raw_pairs(query);
    'pairs: while let Some((name, value)) = pairs.next() {
        let key = as_text(alloc, name)?;
        first = first_value(first, key.as_str() == one, value);
        second = first_value(second, key.as_str() == other, value);
        if first.is_some() && second.is_some() {
            return Ok((first, second));
        }
    }
    Ok((first, second))
}

/// A value as text.
fn text_of<'a>(
    alloc: Global,
    value: Option<&'a [u8]>,
) -> Result<Option<CowStr<'a, Global>>, OutOfMemory>
    ensures { IfOk result (λ text. option_map cow_str_bytes text ≡ option_map (λ (v : Bor (List ℕ)). decoded v.now) value.entry) }
{
    match value {
        Some(bytes) => Ok(Some(as_text(alloc, bytes)?)),
        None => Ok(None),
    }
}

/// The value of the first pair with this name in a query, both decoded as in a form.
pub fn query_value<'a>(
    alloc: Global,
    query: &'a [u8],
    name: &str,
) -> Result<Option<CowStr<'a, Global>>, OutOfMemory>
    ensures { IfOk result (λ found. option_map cow_str_bytes found ≡ value_of name.now query.now) }
{
    let (found, _) = raw_values(alloc, query, name, name)?;
    text_of(alloc, found)
}

/// The values of the first pairs with these names in a query, in one pass over its pairs, decoded as
/// in a form.
pub fn query_values<'a>(
    alloc: Global,
    query: &'a [u8],
    one: &str,
    other: &str,
) -> Result<(Option<CowStr<'a, Global>>, Option<CowStr<'a, Global>>), OutOfMemory>
    ensures one { IfOk result (λ found. option_map cow_str_bytes found.0 ≡ value_of one.now query.now) }
    ensures other { IfOk result (λ found. option_map cow_str_bytes found.1 ≡ value_of other.now query.now) }
{
    let (first, second) = raw_values(alloc, query, one, other)?;
    Ok((text_of(alloc, first)?, text_of(alloc, second)?))
}
