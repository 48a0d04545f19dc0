//! The bidders of a list, or the first fault of any of them.
ghost use Rattle.std.specs.Prelude.{◌≡◌, ◌≤◌, ◌<◌, [], map, length, Some, true, false, IfOk};
ghost use Rattle.std.specs.List.{AllZip, list_any};
ghost use Rattle.adx_units.specs.Among.{is_among as is_among_by};
ghost use Rattle.adx_json.specs.View.{tree_of, trees_of};
ghost use Rattle.adx_json.specs.Rows.{Answers, Says, first_among, first_fault};
ghost use Rattle.rtb_request.specs.Distinct.{all_distinct};
ghost use Rattle.deal_floor.specs.Faults.{lacks_memory};
ghost use Rattle.deal_floor.specs.Rosters.{bidder_rows, name_in};
ghost use Rattle.deal_floor.specs.Reading.{names_of, place_has_name};
ghost use Rattle.deal_floor.specs.declared.fault.RosterFault.TheVariants.{Repeated};
ghost use Rattle.deal_floor.specs.declared.place.TheConstants.{MOST_BIDDERS};

use crate::fault::{Field, RosterFault, bad_field};
use crate::place::{MOST_PORT, Place};
use crate::value::{id_in, is_path_if_given, text_or, whole_or};
use adx_json::{Json, find_members, is_text_if_given};
use adx_units::Id;
use std::alloc::Global;

/// The bidders of a list, or the first fault of any of them.
pub(crate) fn bidders_of(alloc: Global, trees: &[Json]) -> Result<Vec<Place>, RosterFault>
    requires few { length trees.now ≤ MOST_BIDDERS }
    ensures gives { Answers lacks_memory (first_among (λ before. bidder_rows (map (λ t. name_in (Some t)) before)) [] (trees_of trees.now))
        (λ ps. AllZip (λ t p. Says (bidder_rows []) (Some t) p) (trees_of trees.now) ps.items) result }
    ensures distinct { IfOk result (λ ps. all_distinct (names_of ps.items) ≡ true) }
    ensures count { IfOk result (λ ps. length ps.items ≡ length trees.now) }
{
    let mut bidders = Vec::new(alloc);
    for tree in trees {
        let bidder = match bidder_of(alloc, &bidders, tree) {
            Ok(bidder) => bidder,
            Err(fault) => return Err(fault),
        };
        bidders.push(bidder)?;
    }
    Ok(bidders)
}

/// A bidder after others, or its first fault.
fn bidder_of(alloc: Global, others: &Vec<Place>, tree: &Json) -> Result<Place, RosterFault>
    requires room { length others.now.items < MOST_BIDDERS }
    ensures gives { Answers lacks_memory (first_fault (bidder_rows (names_of others.now.items)) (Some (tree_of tree.now)))
        (Says (bidder_rows []) (Some (tree_of tree.now))) result }
    ensures new { IfOk result (λ p. is_among_by (names_of others.now.items) p.name ≡ false) }
{
    let mut found = [None; 4];
    find_members(Some(tree), &["name", "host", "port", "path"], &mut found);
    let [name, host, port, path] = found;
    let Some(name) = id_in(alloc, name)? else {
        return Err(bad_field(Field::BidderName));
    };
    if !is_text_if_given(host) {
        return Err(bad_field(Field::BidderHost));
    }
    let Some(port) = whole_or(port, MOST_PORT, 80) else {
        return Err(bad_field(Field::BidderPort));
    };
    if !is_path_if_given(path) {
        return Err(bad_field(Field::BidderPath));
    }
    if is_among(others, &name) {
        return Err(repeated(others));
    }
    Ok(Place {
        name,
        host: text_or(alloc, host, "127.0.0.1")?,
        port: port as u16,
        path: text_or(alloc, path, "/")?,
    })
}

/// Whether one of the bidders has this name.
#[tactic(auto, using(crate::proofs::BidderSteps::among_bidders))]
fn is_among(bidders: &[Place], name: &Id) -> bool
    ensures { result ≡ is_among_by (names_of bidders.now) name.now }
{
    any_has_name(bidders, name)
}

fn any_has_name(bidders: &[Place], name: &Id) -> bool
    ensures { result ≡ list_any (place_has_name name.now) bidders.now }
{
    bidders
        .iter()
        .any(|place| place.name.as_bytes() == name.as_bytes())
}

/// The fault of a bidder with the name of one of these.
#[tactic(auto, using(crate::proofs::BidderSteps::names_length))]
fn repeated(bidders: &[Place]) -> RosterFault
    requires few { length bidders.now < MOST_BIDDERS }
    ensures { result ≡ Repeated (length (names_of bidders.now)) }
{
    RosterFault::Repeated {
        index: bidders.len() as u32,
    }
}
