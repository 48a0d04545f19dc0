//! What a request's tree says, or its first fault; and what it offers, with the same tests.
ghost use Rattle.std.specs.Prelude.{◌≡◌, codes, option_map, Some, IfOk};
ghost use Rattle.std.specs.List.{list_any};
ghost use Rattle.adx_json.specs.Spelling.{spelling};
ghost use Rattle.adx_json.specs.View.{tree_of, trees_of};
ghost use Rattle.sha2.specs.Sha256.{sha256};
ghost use Rattle.adx_json.specs.Rows.{Answers, Says, first_fault};
ghost use Rattle.adx_json.specs.Values.{given};
ghost use Rattle.rtb_request.specs.Faults.{lacks_memory};
ghost use Rattle.rtb_request.specs.Requests.{ReadsRequest, ReadsOffered, request_rows, offered_rows, leaves_dollars as leaves_dollars_by, is_dollars};

use crate::amount::id_in;
use crate::bid_request::{BidRequest, MOST_IMPS};
use crate::fault::{Field, RequestFault, bad_field};
use crate::imp_reader::imps_of;
use crate::offered_imps::OfferedImps;
use adx_json::{Json, are_texts_if_given, find_given, items_in, push_value, text_in, texts_in};
use adx_units::{OutOfMemory, Sequence};
use sha2::{Digest, Sha256};
use std::alloc::Global;

/// The room with which the spelling of a request begins, in bytes: that of a short request.
const DIGEST_ROOM: usize = 1_024;

impl BidRequest {
    /// A request, or its first fault: what an exchange reads of the tree (OpenRTB 2.6, section 3.2).
    /// A member that is null counts as absent; members that no test names are passed over.
    pub fn of(alloc: Global, tree: &Json) -> Result<BidRequest, RequestFault>
        ensures { ReadsRequest (tree_of tree.now) result }
    {
        let tested = match tested(alloc, tree) {
            Ok(tested) => tested,
            Err(fault) => return Err(fault),
        };
        let OfferedImps { id, imps } = tested.offered;
        Ok(BidRequest {
            id,
            imps,
            wseat: texts_in(alloc, tested.wseat)?,
            bseat: texts_in(alloc, tested.bseat)?,
            bcat: texts_in(alloc, tested.bcat)?,
            badv: texts_in(alloc, tested.badv)?,
            digest: digest_of(alloc, tree)?,
        })
    }
}

impl OfferedImps {
    /// What a request offers, or its first fault: as `BidRequest::of` reads it, with neither the seats, the categories and
    /// the domains nor the digest.
    pub fn of(alloc: Global, tree: &Json) -> Result<OfferedImps, RequestFault>
        ensures { ReadsOffered (tree_of tree.now) result }
    {
        match tested(alloc, tree) {
            Ok(tested) => Ok(tested.offered),
            Err(fault) => Err(fault),
        }
    }
}

/// What a request that passed its tests offers, and the members of its other texts.
#[derive(Drop)]
struct TestedRequest<'a> {
    offered: OfferedImps,
    wseat: Option<&'a Json>,
    bseat: Option<&'a Json>,
    bcat: Option<&'a Json>,
    badv: Option<&'a Json>,
}

/// A request that passed its tests, or the fault of the first that fails.
fn tested(alloc: Global, tree: &Json) -> Result<TestedRequest<'_>, RequestFault>
    ensures offered { Answers lacks_memory (first_fault request_rows (Some (tree_of tree.now)))
        (λ r. Says offered_rows (Some (tree_of tree.now)) r.offered) result }
    ensures wseat { IfOk result (λ r. option_map (λ t. tree_of t.now) r.wseat ≡ given (codes "wseat") (tree_of tree.now)) }
    ensures bseat { IfOk result (λ r. option_map (λ t. tree_of t.now) r.bseat ≡ given (codes "bseat") (tree_of tree.now)) }
    ensures bcat { IfOk result (λ r. option_map (λ t. tree_of t.now) r.bcat ≡ given (codes "bcat") (tree_of tree.now)) }
    ensures badv { IfOk result (λ r. option_map (λ t. tree_of t.now) r.badv ≡ given (codes "badv") (tree_of tree.now)) }
{
    let mut found = [None; 7];
    find_given(
        Some(tree),
        &["id", "imp", "cur", "wseat", "bseat", "bcat", "badv"],
        &mut found,
    );
    let [id, imp, cur, wseat, bseat, bcat, badv] = found;
    let Some(id) = id_in(alloc, id)? else {
        return Err(RequestFault::NoId);
    };
    let trees = items_in(imp);
    if trees.is_empty() {
        return Err(RequestFault::NoImp);
    }
    if trees.len() > MOST_IMPS {
        return Err(RequestFault::TooManyImps);
    }
    if !are_texts_if_given(cur) {
        return Err(bad_field(Field::Cur));
    }
    if !are_texts_if_given(wseat) {
        return Err(bad_field(Field::Wseat));
    }
    if !are_texts_if_given(bseat) {
        return Err(bad_field(Field::Bseat));
    }
    if !are_texts_if_given(bcat) {
        return Err(bad_field(Field::Bcat));
    }
    if !are_texts_if_given(badv) {
        return Err(bad_field(Field::Badv));
    }
    let imps = match imps_of(alloc, leaves_dollars(items_in(cur)), trees) {
        Ok(imps) => Sequence::from(imps),
        Err(fault) => return Err(fault),
    };
    Ok(TestedRequest {
        offered: OfferedImps { id, imps },
        wseat,
        bseat,
        bcat,
        badv,
    })
}

/// Whether currencies leave USD: none is named, or USD is among them.
#[tactic(auto, using(crate::proofs::RequestSteps::leaves_are))]
fn leaves_dollars(currencies: &[Json]) -> bool
    ensures { result ≡ leaves_dollars_by (trees_of currencies.now) }
{
    currencies.is_empty() || any_dollars(currencies)
}

fn any_dollars(currencies: &[Json]) -> bool
    ensures { result ≡ list_any (λ t. is_dollars (tree_of t)) currencies.now }
{
    currencies.iter().any(|currency| is_usd(currency))
}

fn is_usd(currency: &Json) -> bool
    ensures { result ≡ is_dollars (tree_of currency.now) }
{
    match text_in(Some(currency)) {
        Some(text) => text.as_str() == "USD",
        None => false,
    }
}

/// SHA-256 of the compact spelling of a tree.
fn digest_of(alloc: Global, tree: &Json) -> Result<[u8; 32], OutOfMemory>
    ensures { IfOk result (λ d. d ≡ sha256 (spelling (tree_of tree.now))) }
{
    let mut text = String::with_capacity(alloc, DIGEST_ROOM)?;
    push_value(&mut text, tree)?;
    Ok(Sha256::digest(text.as_str().as_bytes()))
}
