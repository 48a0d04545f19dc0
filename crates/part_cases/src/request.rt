//! Requests for bids: their first fault, what is seen of them, what bidders are asked, and their digest.
use crate::json::tree_of;
use crate::readers::{done, push_other};
use adx_units::OutOfMemory;
use rtb_request::{BidRequest, OfferedImps, RequestFault, push_for_bidders};
use std::alloc::Global;
use std::fmt::Write;

/// Adds a fault: a member's name, the id of an impression that comes again, or what it is called.
pub(crate) fn push_fault(out: &mut String, fault: &RequestFault) -> Result<(), OutOfMemory> {
    match fault {
        RequestFault::RepeatedImp { id } => Ok(out.push_str(id.as_str())?),
        RequestFault::BadField { field } => Ok(out.push_str(field.name())?),
        RequestFault::OutOfMemory => Err(OutOfMemory),
        other => done(write!(out, "{other:?}")),
    }
}

/// Adds that a request has no fault, or its first.
fn push_verdict<T: Drop>(
    out: &mut String,
    read: Result<T, RequestFault>,
) -> Result<(), OutOfMemory> {
    match read {
        Ok(_) => Ok(out.push_str("view")?),
        Err(fault) => push_fault(out, &fault),
    }
}

/// Adds the first fault of a request; by both readers, where they don't say the same.
pub(crate) fn push_request(
    out: &mut String,
    alloc: Global,
    bytes: &[u8],
) -> Result<(), OutOfMemory> {
    let tree = tree_of(alloc, bytes)?;
    let mut offered = String::new(alloc);
    push_verdict(&mut offered, OfferedImps::of(alloc, &tree))?;
    push_verdict(out, BidRequest::of(alloc, &tree))?;
    push_other(out, offered.as_str())
}

/// Adds what is seen of a request: how many impressions it has; of the first whether it is sold, by deals alone, its floor, how
/// many deals it has and how long its award stays open; and how many seats may bid.
pub(crate) fn push_view(out: &mut String, alloc: Global, bytes: &[u8]) -> Result<(), OutOfMemory> {
    let tree = tree_of(alloc, bytes)?;
    let Ok(request) = BidRequest::of(alloc, &tree) else {
        return Err(OutOfMemory);
    };
    let Some(first) = request.imps.as_slice().first() else {
        return Err(OutOfMemory);
    };
    done(write!(
        out,
        "{} {} {} {} {} {} {}",
        request.imps.len(),
        if first.sold { "sold" } else { "unsold" },
        if first.private_only {
            "private"
        } else {
            "open"
        },
        first.floor.0,
        first.deals.len(),
        first.exp,
        request.wseat.len()
    ))
}

/// Adds what bidders are asked.
pub(crate) fn push_asked(out: &mut String, alloc: Global, bytes: &[u8]) -> Result<(), OutOfMemory> {
    let tree = tree_of(alloc, bytes)?;
    push_for_bidders(out, &tree)
}

/// Adds the digest of a request.
pub(crate) fn push_digest(
    out: &mut String,
    alloc: Global,
    bytes: &[u8],
) -> Result<(), OutOfMemory> {
    let tree = tree_of(alloc, bytes)?;
    let Ok(request) = BidRequest::of(alloc, &tree) else {
        return Err(OutOfMemory);
    };
    for byte in &request.digest {
        done(write!(out, "{byte:02x}"))?;
    }
    Ok(())
}
