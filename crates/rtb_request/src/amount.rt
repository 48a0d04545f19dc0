//! Floors, seconds and ids of a request's objects.
ghost use Rattle.std.specs.Prelude.{◌≡◌, ◌≤◌, option_map, IfOk, IfSome, IfNone, Ok, false, true, is_ok};
ghost use Rattle.adx_units.specs.declared.price.TheConstants.{PRICE_LIMIT};
ghost use Rattle.adx_json.specs.View.{tree_of};
ghost use Rattle.adx_json.specs.Values.{text_or_empty};
ghost use Rattle.rtb_request.specs.declared.imp.TheConstants.{MOST_SECONDS};
ghost use Rattle.rtb_request.specs.Amounts.{floor_in as floor_by, is_id, seconds_in as seconds_by};

use crate::imp::MOST_SECONDS;
use adx_json::{Json, number_in, text_in, whole_or_zero};
use adx_units::{Id, OutOfMemory, Units, floor_of};
use std::alloc::Global;

/// The floor that a value is, 0 where it is absent. None exactly where what is given is no floor.
pub(crate) fn floor_in(value: Option<&Json>) -> Option<Units>
    ensures some { IfSome result (λ u. floor_by (option_map (λ t. tree_of t.now) value.entry) ≡ Ok u) }
    ensures none { IfNone result (is_ok (floor_by (option_map (λ t. tree_of t.now) value.entry)) ≡ false) }
    ensures in_range { IfSome result (λ u. u.0 ≤ PRICE_LIMIT) }
{
    if value.is_none() {
        return Some(Units(0));
    }
    match floor_of(number_in(value)?.as_bytes()) {
        Ok(floor) => Some(floor),
        Err(_) => None,
    }
}

/// The seconds that a value is, 0 where it is absent or no whole number below 2^31.
pub(crate) fn seconds_in(value: Option<&Json>) -> u32
    ensures value { result ≡ seconds_by (option_map (λ t. tree_of t.now) value.entry) }
    ensures in_range { result ≤ MOST_SECONDS }
{
    whole_or_zero(value, MOST_SECONDS) as u32
}

/// A copy of the id that a value is. None exactly where it is no text of 1 to 128 bytes.
#[tactic(auto, using(crate::proofs::Ids::sized_id, crate::proofs::Ids::unsized_id))]
pub(crate) fn id_in(alloc: Global, value: Option<&Json>) -> Result<Option<Id>, OutOfMemory>
    ensures text { IfOk result (λ found. IfSome found (λ i. i ≡ text_or_empty (option_map (λ t. tree_of t.now) value.entry))) }
    ensures some { IfOk result (λ found. IfSome found (λ _. is_id (option_map (λ t. tree_of t.now) value.entry) ≡ true)) }
    ensures none { IfOk result (λ found. IfNone found (is_id (option_map (λ t. tree_of t.now) value.entry) ≡ false)) }
{
    let Some(text) = text_in(value) else {
        return Ok(None);
    };
    let id = Id::of(alloc, text.as_str())?;
    Ok(id)
}
