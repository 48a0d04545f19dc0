//! The deals of a list, or the first fault of any of them.
ghost use Rattle.std.specs.Prelude.{◌≡◌, map, true, Some, IfOk, OnOk, []};
ghost use Rattle.std.specs.List.{AllZip};
ghost use Rattle.adx_json.specs.View.{tree_of, trees_of};
ghost use Rattle.adx_json.specs.Rows.{Answers, Says, first_fault, first_among};
ghost use Rattle.rtb_request.specs.Faults.{lacks_memory};
ghost use Rattle.rtb_request.specs.Distinct.{all_distinct};
ghost use Rattle.rtb_request.specs.Deals.{deal_rows, that_count};
ghost use Rattle.rtb_request.specs.Met.{GivesDeal, HasIdOf, IsPut};

use crate::amount::floor_in;
use crate::deal::Deal;
use crate::fault::{Field, RequestFault, bad_field};
use adx_json::{
    Json, are_texts_if_given, find_given, is_absent_or, is_number_text, is_text_if_given, text_in,
    texts_in,
};
use adx_units::{NameSet, OutOfMemory};
use std::alloc::Global;

/// The deals that count of a list, or the first fault of any deal in it.
pub(crate) fn deals_of(alloc: Global, trees: &[Json]) -> Result<Vec<Deal>, RequestFault>
    ensures gives { Answers lacks_memory (first_among (λ others. deal_rows) [] (trees_of trees.now))
        (λ ds. AllZip (λ t d. Says deal_rows (Some t) d) (that_count [] (trees_of trees.now)) ds.items) result }
    ensures distinct { IfOk result (λ ds. all_distinct (map (λ d. d.id) ds.items) ≡ true) }
{
    let mut deals = Vec::new(alloc);
    let mut ids = NameSet::new(alloc);
    for tree in trees {
        let found = match deal_of(alloc, &mut ids, tree) {
            Ok(found) => found,
            Err(fault) => return Err(fault),
        };
        put_in(&mut deals, found)?;
    }
    Ok(deals)
}

fn put_in(deals: &mut Vec<Deal>, found: Option<Deal>) -> Result<(), OutOfMemory>
    ensures { OnOk result (IsPut deals.old.items found deals.new.items) }
{
    if let Some(deal) = found {
        deals.push(deal)?;
    }
    Ok(())
}

/// A deal where it counts after those with these ids, or its first fault. Memory is asked for once every test holds.
fn deal_of<'a>(
    alloc: Global,
    ids: &mut NameSet<'a>,
    tree: &'a Json,
) -> Result<Option<Deal>, RequestFault>
    ensures gives { Answers lacks_memory (first_fault deal_rows (Some (tree_of tree.now))) (GivesDeal ids.old (tree_of tree.now)) result }
    ensures ids { IfOk result (λ found. HasIdOf ids.old found ids.new) }
{
    let mut found = [None; 6];
    find_given(
        Some(tree),
        &["id", "bidfloor", "bidfloorcur", "at", "wseat", "wadomain"],
        &mut found,
    );
    let [id, bidfloor, currency, at, wseat, wadomain] = found;
    let Some(id) = text_in(id) else {
        return Err(bad_field(Field::DealId));
    };
    let Some(floor) = floor_in(bidfloor) else {
        return Err(bad_field(Field::DealBidfloor));
    };
    if !is_text_if_given(currency) {
        return Err(bad_field(Field::DealBidfloorcur));
    }
    if !are_texts_if_given(wseat) {
        return Err(bad_field(Field::DealWseat));
    }
    if !are_texts_if_given(wadomain) {
        return Err(bad_field(Field::DealWadomain));
    }
    if !is_absent_or(currency, "USD") || ids.has(id.as_str()) {
        return Ok(None);
    }
    ids.put(id.as_str())?;
    Ok(Some(Deal {
        id: id.copy(alloc)?,
        floor,
        fixed: is_number_text(at, "3"),
        wseat: texts_in(alloc, wseat)?,
        wadomain: texts_in(alloc, wadomain)?,
    }))
}
