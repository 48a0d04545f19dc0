//! The readers, by their names.
use crate::answer::{push_answer, push_bid_in};
use crate::documents::{push_cert_said, push_record_said};
use crate::entry::push_entry_said;
use crate::json::push_tree;
use crate::line::{push_line_said, push_roster_said};
use crate::macros::{LOST, SOLD};
use crate::messages::{Side, push_head, push_pieces, push_target, push_values};
use crate::money::{push_money, push_price_text};
use crate::offer::push_offers_said;
use crate::request::{push_asked, push_digest, push_request, push_view};
use crate::text::push_fronts;
use crate::words::{push_network_words, push_paths, push_words};
use crate::world::push_world_said;
use adx_units::{OutOfMemory, Text, budget_of, floor_of, price_of};
use notice_macros::{expand_markup, expand_url};
use std::alloc::{AllocError, Global};
use std::fmt::Write;

/// Whether memory was there for what was written.
pub(crate) fn done(written: Result<(), AllocError>) -> Result<(), OutOfMemory> {
    match written {
        Ok(()) => Ok(()),
        Err(_) => Err(OutOfMemory),
    }
}

/// Adds a text that may lack memory.
pub(crate) fn push_text(
    out: &mut String,
    text: Result<Text, OutOfMemory>,
) -> Result<(), OutOfMemory> {
    match text {
        Ok(text) => Ok(out.push_str(text.as_str())?),
        Err(wanting) => Err(wanting),
    }
}

/// Adds what another reader says, where that isn't the same.
pub(crate) fn push_other(out: &mut String, other: &str) -> Result<(), OutOfMemory> {
    if out.as_str() == other {
        return Ok(());
    }
    done(write!(out, ", or {other}"))
}

/// Adds what a reader says of bytes; some say it of the text that they are.
pub(crate) fn push_said(
    out: &mut String,
    alloc: Global,
    reader: &str,
    bytes: &[u8],
) -> Result<(), OutOfMemory> {
    let text = std::str::from_utf8(bytes).unwrap_or("");
    match reader {
        "json" => push_tree(out, alloc, bytes),
        "utf8" => push_fronts(out, bytes),
        "price" => push_money(out, price_of(bytes)),
        "floor" => push_money(out, floor_of(bytes)),
        "budget" => push_money(out, budget_of(bytes)),
        "request" => push_request(out, alloc, bytes),
        "view" => push_view(out, alloc, bytes),
        "asked" => push_asked(out, alloc, bytes),
        "digest" => push_digest(out, alloc, bytes),
        "answer" => push_answer(out, alloc, bytes),
        "line" => push_line_said(out, alloc, bytes),
        "roster" => push_roster_said(out, alloc, bytes),
        "head" => push_head(out, bytes),
        "messages" => push_pieces(out, alloc, Side::Messages, bytes),
        "response" => push_pieces(out, alloc, Side::Response, bytes),
        "target" => push_target(out, bytes),
        "values" => push_values(out, alloc, bytes),
        "record" => push_record_said(out, alloc, bytes),
        "cert" => push_cert_said(out, alloc, bytes),
        "entry1" => push_entry_said(out, alloc, bytes, 1),
        "entry2" => push_entry_said(out, alloc, bytes, 2),
        "units" => push_price_text(out, text),
        "url-sold" => push_text(out, expand_url(alloc, text, &SOLD)),
        "url-lost" => push_text(out, expand_url(alloc, text, &LOST)),
        "markup-sold" => push_text(out, expand_markup(alloc, text, &SOLD)),
        "markup-lost" => push_text(out, expand_markup(alloc, text, &LOST)),
        "words" => push_words(out, alloc, text),
        "network" => push_network_words(out, alloc, text),
        "paths" => push_paths(out, alloc, text),
        "world" => push_world_said(out, alloc, text),
        "bid" => push_bid_in(out, alloc, text),
        "offers" => push_offers_said(out, alloc, text),
        _ => Ok(out.push_str("no such reader")?),
    }
}
