//! What a value is that may be absent.
ghost use Rattle.std.specs.Prelude.{◌≡◌, ◌≤◌, option_map};
ghost use Rattle.adx_json.specs.View.{tree_of, trees_of};
ghost use Rattle.adx_json.specs.Values.{text_in as text_by, number_in as number_by, items_in as items_by, is_text_if_given as is_text_by, is_list_if_given as is_list_by, is_object_if_given as is_object_by, is_absent_or as is_absent_or_by, is_number_text as is_number_by, whole_or_zero as whole_or_zero_by};

use crate::tree::Json;
use adx_units::{Text, whole_up_to};

/// The text that a value is. None where it is absent or no text.
pub fn text_in(value: Option<&Json>) -> Option<&Text>
    ensures { option_map (λ t. t.now) result ≡ text_by (option_map (λ t. tree_of t.now) value.entry) }
{
    match value? {
        Json::Text(text) => Some(text),
        _ => None,
    }
}

/// The text of the number that a value is. None where it is absent or no number.
pub fn number_in(value: Option<&Json>) -> Option<&Text>
    ensures { option_map (λ t. t.now) result ≡ number_by (option_map (λ t. tree_of t.now) value.entry) }
{
    match value? {
        Json::Number(number) => Some(number),
        _ => None,
    }
}

/// The items of a list. Empty where the value is absent or no list.
#[tactic(auto, using(crate::proofs::Items::listed, crate::proofs::Items::not_listed))]
pub fn items_in(value: Option<&Json>) -> &[Json]
    ensures { trees_of result.now ≡ items_by (option_map (λ t. tree_of t.now) value.entry) }
{
    let Some(value) = value else {
        return &[];
    };
    match value.items() {
        Some(items) => items,
        None => &[],
    }
}

/// Whether a value is absent or a text.
pub fn is_text_if_given(value: Option<&Json>) -> bool
    ensures { result ≡ is_text_by (option_map (λ t. tree_of t.now) value.entry) }
{
    value.is_none() || text_in(value).is_some()
}

/// Whether a value is absent or a list.
pub fn is_list_if_given(value: Option<&Json>) -> bool
    ensures { result ≡ is_list_by (option_map (λ t. tree_of t.now) value.entry) }
{
    matches!(value, None | Some(Json::List(_)))
}

/// Whether a value is absent or an object.
pub fn is_object_if_given(value: Option<&Json>) -> bool
    ensures { result ≡ is_object_by (option_map (λ t. tree_of t.now) value.entry) }
{
    matches!(value, None | Some(Json::Object(_)))
}

/// Whether a value is absent or that text.
pub fn is_absent_or(value: Option<&Json>, want: &str) -> bool
    ensures { result ≡ is_absent_or_by want.now (option_map (λ t. tree_of t.now) value.entry) }
{
    match text_in(value) {
        Some(text) => text.as_str() == want,
        None => value.is_none(),
    }
}

/// Whether a value is the number with that text: a number is known by its text, so 1.0 isn't 1.
pub fn is_number_text(value: Option<&Json>, want: &str) -> bool
    ensures { result ≡ is_number_by want.now (option_map (λ t. tree_of t.now) value.entry) }
{
    match number_in(value) {
        Some(number) => number.as_str() == want,
        None => false,
    }
}

/// The whole number of at most `most` that a value is; 0 where it is absent or anything else.
pub fn whole_or_zero(value: Option<&Json>, most: u64) -> u64
    ensures value { result ≡ whole_or_zero_by most (option_map (λ t. tree_of t.now) value.entry) }
    ensures small { result ≤ most }
{
    let Some(number) = number_in(value) else {
        return 0;
    };
    whole_up_to(number.as_bytes(), most).unwrap_or(0)
}
