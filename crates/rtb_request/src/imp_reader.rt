//! The impressions of a list, or the first fault of any of them.
ghost use Rattle.std.specs.Prelude.{◌≡◌, [], map, length, option_map, true, false, Some, IfOk};
ghost use Rattle.std.specs.List.{AllZip, list_any};
ghost use Rattle.adx_json.specs.View.{tree_of, trees_of};
ghost use Rattle.adx_units.specs.Among.{is_among as is_among_by};
ghost use Rattle.adx_json.specs.Rows.{Answers, Says, first_fault, first_among};
ghost use Rattle.rtb_request.specs.Faults.{lacks_memory};
ghost use Rattle.rtb_request.specs.Distinct.{all_distinct};
ghost use Rattle.rtb_request.specs.Imps.{imp_rows, imp_id, is_zero_or_one_if_given as is_zero_or_one_by};
ghost use Rattle.rtb_request.specs.Ids.{imp_has_id};

use crate::amount::{floor_in, id_in, seconds_in};
use crate::deal_reader::deals_of;
use crate::fault::{Field, RequestFault, bad_field};
use crate::imp::Imp;
use adx_json::{
    Json, find_given, is_absent_or, is_list_if_given, is_number_text, is_object_if_given,
    is_text_if_given, items_in,
};
use adx_units::{Id, Sequence};
use std::alloc::Global;

/// The impressions of a list, or the first fault of any of them. `dollars` says whether the request takes USD.
pub(crate) fn imps_of(
    alloc: Global,
    dollars: bool,
    trees: &[Json],
) -> Result<Vec<Imp>, RequestFault>
    ensures gives { Answers lacks_memory (first_among (λ before. imp_rows dollars (map imp_id before)) [] (trees_of trees.now))
        (λ imps. AllZip (λ t i. Says (imp_rows dollars []) (Some t) i) (trees_of trees.now) imps.items) result }
    ensures distinct { IfOk result (λ imps. all_distinct (map (λ i. i.id) imps.items) ≡ true) }
    ensures count { IfOk result (λ imps. length imps.items ≡ length trees.now) }
{
    let mut imps = Vec::new(alloc);
    for tree in trees {
        let imp = match imp_of(alloc, &imps, dollars, tree) {
            Ok(imp) => imp,
            Err(fault) => return Err(fault),
        };
        imps.push(imp)?;
    }
    Ok(imps)
}

/// An impression after others, or its first fault.
fn imp_of(alloc: Global, others: &Vec<Imp>, dollars: bool, tree: &Json) -> Result<Imp, RequestFault>
    ensures gives { Answers lacks_memory (first_fault (imp_rows dollars (map (λ i. i.id) others.now.items)) (Some (tree_of tree.now)))
        (Says (imp_rows dollars []) (Some (tree_of tree.now))) result }
    ensures new { IfOk result (λ i. is_among_by (map (λ i. i.id) others.now.items) i.id ≡ false) }
{
    let mut found = [None; 6];
    find_given(
        Some(tree),
        &["id", "bidfloor", "bidfloorcur", "pmp", "qty", "exp"],
        &mut found,
    );
    let [id, bidfloor, currency, pmp, qty, exp] = found;
    let mut within = [None; 2];
    find_given(pmp, &["private_auction", "deals"], &mut within);
    let [private_auction, deals] = within;
    let Some(id) = id_in(alloc, id)? else {
        return Err(bad_field(Field::ImpId));
    };
    if is_among(others, &id) {
        return Err(RequestFault::RepeatedImp { id });
    }
    let Some(floor) = floor_in(bidfloor) else {
        return Err(bad_field(Field::ImpBidfloor));
    };
    if !is_text_if_given(currency) {
        return Err(bad_field(Field::ImpBidfloorcur));
    }
    if !is_object_if_given(pmp) {
        return Err(bad_field(Field::ImpPmp));
    }
    if !is_zero_or_one_if_given(private_auction) {
        return Err(bad_field(Field::PmpPrivateAuction));
    }
    if !is_list_if_given(deals) {
        return Err(bad_field(Field::PmpDeals));
    }
    let deals = match deals_of(alloc, items_in(deals)) {
        Ok(deals) => Sequence::from(deals),
        Err(fault) => return Err(fault),
    };
    Ok(Imp {
        id,
        floor,
        sold: dollars && is_absent_or(currency, "USD") && qty.is_none(),
        private_only: is_number_text(private_auction, "1"),
        deals,
        exp: seconds_in(exp),
    })
}

/// Whether a value is absent or the number 0 or 1.
fn is_zero_or_one_if_given(value: Option<&Json>) -> bool
    ensures { result ≡ is_zero_or_one_by (option_map (λ t. tree_of t.now) value.entry) }
{
    value.is_none() || is_number_text(value, "0") || is_number_text(value, "1")
}

/// Whether one of the impressions has this id.
fn is_among(imps: &[Imp], id: &Id) -> bool
    ensures { result ≡ is_among_by (map (λ i. i.id) imps.now) id.now }
{
    any_has_id(imps, id)
}

fn any_has_id(imps: &[Imp], id: &Id) -> bool
    ensures { result ≡ list_any (imp_has_id id.now) imps.now }
{
    imps.iter().any(|imp| imp.id.as_bytes() == id.as_bytes())
}
