//! What bidders answer requests.
use crate::json::tree_of;
use crate::readers::{push_other, push_text};
use crate::request::push_fault;
use adx_json::{Json, write};
use adx_units::OutOfMemory;
use bidder_core::Bidder;
use rtb_request::{BidRequest, OfferedImps};
use std::alloc::Global;

/// Adds an answer, or that there is none.
fn push_answer(
    out: &mut String,
    alloc: Global,
    answer: Result<Option<Json>, OutOfMemory>,
) -> Result<(), OutOfMemory> {
    match answer {
        Ok(Some(tree)) => push_text(out, write(alloc, &tree)),
        Ok(None) => Ok(out.push_str("none")?),
        Err(wanting) => Err(wanting),
    }
}

/// Adds what a bidder answers a request.
fn push_whole(
    out: &mut String,
    alloc: Global,
    bidder: &Bidder,
    tree: &Json,
) -> Result<(), OutOfMemory> {
    match BidRequest::of(alloc, tree) {
        Ok(request) => push_answer(out, alloc, bidder.answer(alloc, &request)),
        Err(fault) => push_fault(out, &fault),
    }
}

/// Adds what a bidder answers what a request offers.
fn push_offered(
    out: &mut String,
    alloc: Global,
    bidder: &Bidder,
    tree: &Json,
) -> Result<(), OutOfMemory> {
    match OfferedImps::of(alloc, tree) {
        Ok(offered) => push_answer(out, alloc, bidder.answer_offered(alloc, &offered)),
        Err(fault) => push_fault(out, &fault),
    }
}

/// Adds what the bidder of a price line answers the request after it; by both of its calls, where they don't answer the same.
pub(crate) fn push_offers_said(
    out: &mut String,
    alloc: Global,
    text: &str,
) -> Result<(), OutOfMemory> {
    let (line, request) = text.split_once(' ').unwrap_or((text, ""));
    let Ok(bidder) = Bidder::of(alloc, &tree_of(alloc, line.as_bytes())?) else {
        return Err(OutOfMemory);
    };
    let tree = tree_of(alloc, request.as_bytes())?;
    let mut offered = String::new(alloc);
    push_offered(&mut offered, alloc, &bidder, &tree)?;
    push_whole(out, alloc, &bidder, &tree)?;
    push_other(out, offered.as_str())
}
