//! The forms of a roster's members.
ghost use Rattle.std.specs.Prelude.{◌≡◌, ◌≤◌, ◌&&◌, ◌==◌, IfOk, IfSome, IfNone, Ok, Some, false, true, is_ok};
ghost use Rattle.std.specs.List.{list_all, enumerate_from};
ghost use Rattle.adx_units.specs.Number.{is_digit as is_digit_by};
ghost use Rattle.adx_units.specs.declared.price.TheConstants.{BUDGET_LIMIT};
ghost use Rattle.adx_json.specs.Values.{text_in as text_by, text_or_empty};
ghost use Rattle.rtb_request.specs.Amounts.{is_id};
ghost use Rattle.deal_floor.specs.Forms.{is_date as is_date_by, is_date_text, is_date_byte as is_date_byte_by, text_or as text_or_by, is_whole_if_given, whole_or as whole_or_by, is_path_if_given as is_path_by, budget_in as budget_by};
ghost use Rattle.deal_floor.specs.Reading.{given};

use adx_json::{Json, number_in, text_in};
use adx_units::{Id, OutOfMemory, Text, Units, budget_of, whole_up_to};
use std::alloc::Global;

fn is_digit(byte: u8) -> bool
    ensures { result ≡ is_digit_by byte }
{
    byte >= b'0' && byte <= b'9'
}

/// Whether a date has this byte at this place.
fn is_date_byte(place: usize, byte: u8) -> bool
    ensures { result ≡ is_date_byte_by place byte }
{
    if place == 4 || place == 7 {
        byte == b'-'
    } else {
        is_digit(byte)
    }
}

/// Whether a text is a date as `2025-03-01`; the month and the day may be any two digits.
pub(crate) fn is_date(text: &[u8]) -> bool
    ensures { result ≡ is_date_by text.now }
{
    text.len() == 10 && are_date_bytes(text)
}

fn are_date_bytes(text: &[u8]) -> bool
    ensures { result ≡ list_all (λ p. is_date_byte_by p.0 p.1) (enumerate_from 0 text.now) }
{
    text.iter()
        .enumerate()
        .all(|(place, byte)| is_date_byte(place, *byte))
}

/// The date that a value is. None exactly where it is no text of that form.
pub(crate) fn date_in(value: Option<&Json>) -> Option<&Text>
    ensures some { IfSome result (λ t. text_by (given value.entry) ≡ Some t.now) }
    ensures dated { IfSome result (λ t. is_date_by t.now ≡ true) }
    ensures none { IfNone result (is_date_text (text_by (given value.entry)) ≡ false) }
{
    let text = text_in(value)?;
    if !is_date(text.as_bytes()) {
        return None;
    }
    Some(text)
}

/// A copy of the text that a value is, or of another where it is none. The one error is want of memory.
pub fn text_or(alloc: Global, value: Option<&Json>, absent: &str) -> Result<Text, OutOfMemory>
    ensures { IfOk result (λ t. t ≡ text_or_by absent.now (given value.entry)) }
{
    match text_in(value) {
        Some(text) => text.copy(alloc),
        None => Text::of(alloc, absent),
    }
}

/// The whole number of at most `most` that a value is, or another where it is absent. None exactly where what is given
/// is no such number.
pub(crate) fn whole_or(value: Option<&Json>, most: u64, absent: u64) -> Option<u64>
    ensures some { IfSome result (λ n. n ≡ whole_or_by absent most (given value.entry)) }
    ensures given { IfSome result (λ _. is_whole_if_given most (given value.entry) ≡ true) }
    ensures none { IfNone result (is_whole_if_given most (given value.entry) ≡ false) }
    ensures small { absent ≤ most → IfSome result (λ n. n ≤ most) }
{
    if value.is_none() {
        return Some(absent);
    }
    whole_up_to(number_in(value)?.as_bytes(), most)
}

/// Whether a value is absent or a text that begins with a slash.
pub(crate) fn is_path_if_given(value: Option<&Json>) -> bool
    ensures { result ≡ is_path_by (given value.entry) }
{
    match text_in(value) {
        Some(path) => matches!(path.as_bytes(), [b'/', ..]),
        None => value.is_none(),
    }
}

/// The budget that a value is. None exactly where it is none.
pub(crate) fn budget_in(value: Option<&Json>) -> Option<Units>
    ensures some { IfSome result (λ u. budget_by (given value.entry) ≡ Ok u) }
    ensures none { IfNone result (is_ok (budget_by (given value.entry)) ≡ false) }
    ensures in_range { IfSome result (λ u. (1 ≤ u.0) × (u.0 ≤ BUDGET_LIMIT)) }
{
    match budget_of(number_in(value)?.as_bytes()) {
        Ok(budget) => Some(budget),
        Err(_) => None,
    }
}

/// A copy of the id that a value is. None exactly where it is no text of 1 to 128 bytes. The one error is want of memory.
#[tactic(auto, using(rtb_request::proofs::Ids::sized_id, rtb_request::proofs::Ids::unsized_id))]
pub fn id_in(alloc: Global, value: Option<&Json>) -> Result<Option<Id>, OutOfMemory>
    ensures text { IfOk result (λ found. IfSome found (λ i. i ≡ text_or_empty (given value.entry))) }
    ensures some { IfOk result (λ found. IfSome found (λ _. is_id (given value.entry) ≡ true)) }
    ensures none { IfOk result (λ found. IfNone found (is_id (given value.entry) ≡ false)) }
{
    let Some(text) = text_in(value) else {
        return Ok(None);
    };
    let id = Id::of(alloc, text.as_str())?;
    Ok(id)
}
