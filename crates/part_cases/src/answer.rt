//! Answers of bidders to the request `a`: their first fault, and what is read of a bid.
use crate::json::tree_of;
use crate::money::push_money;
use crate::readers::done;
use adx_units::{Id, OutOfMemory, Text};
use rtb_response::{AnswerFault, Bid, BidAnswer};
use std::alloc::Global;
use std::fmt::Write;

/// The answer of a text.
fn answer_of(alloc: Global, bytes: &[u8]) -> Result<Result<BidAnswer, AnswerFault>, OutOfMemory> {
    let Some(id) = Id::of(alloc, "a")? else {
        return Err(OutOfMemory);
    };
    let tree = tree_of(alloc, bytes)?;
    Ok(BidAnswer::of(alloc, &tree, &id))
}

/// Adds the first fault of an answer, or that it has none.
pub(crate) fn push_answer(
    out: &mut String,
    alloc: Global,
    bytes: &[u8],
) -> Result<(), OutOfMemory> {
    match answer_of(alloc, bytes)? {
        Ok(_) => Ok(out.push_str("bids")?),
        Err(fault) => done(write!(out, "{fault:?}")),
    }
}

/// Adds texts, with a comma after each, and a bar.
fn push_texts(out: &mut String, texts: &[Text]) -> Result<(), OutOfMemory> {
    for text in texts {
        done(write!(out, "{},", text.as_str()))?;
    }
    Ok(out.push_str("|")?)
}

/// Adds what is read of a bid: whether it is whole, its id and impression, its price, seconds and deal, the addresses of its notices, and its
/// advertisement.
fn push_bid(out: &mut String, bid: &Bid) -> Result<(), OutOfMemory> {
    let whole = if bid.whole { "whole" } else { "not whole" };
    done(write!(out, "{whole}|{}|{}|", bid.id.as_str(), bid.impid.as_str()))?;
    push_money(out, bid.price)?;
    let (mark, deal) = match &bid.dealid {
        Some(deal) => ("deal ", deal.as_str()),
        None => ("-", ""),
    };
    done(write!(
        out,
        "|{}|{mark}{deal}|{}|{}|{}|{}|{}|",
        bid.exp,
        bid.nurl.as_str(),
        bid.burl.as_str(),
        bid.lurl.as_str(),
        bid.adid.as_str(),
        bid.cid.as_str()
    ))?;
    push_texts(out, bid.adomain.as_slice())?;
    push_texts(out, bid.cat.as_slice())?;
    Ok(out.push_str(bid.body.as_str())?)
}

/// Adds what is read of the one bid of an answer's second seat; its first seat has none, which win together.
pub(crate) fn push_bid_in(out: &mut String, alloc: Global, bid: &str) -> Result<(), OutOfMemory> {
    let mut text = String::new(alloc);
    done(write!(
        text,
        r#"{{"id":"a","bidid":"r","seatbid":[{{"bid":[],"group":1}},{{"seat":"s","bid":[{bid}]}}]}}"#
    ))?;
    let Ok(answer) = answer_of(alloc, text.as_bytes())? else {
        return Ok(out.push_str("no answer")?);
    };
    match answer.seats.as_slice() {
        [empty, seat] if empty.all_or_none && !seat.all_or_none => match seat.bids.as_slice() {
            [only] => push_bid(out, only),
            _ => Ok(out.push_str("other bids")?),
        },
        _ => Ok(out.push_str("other seats")?),
    }
}
