//! What a bidder's answer says, read whole.

use crate::bidder_watch::Bidder;
use crate::calls::Outcome;
use adx_http::{Conn, HttpFault};
use adx_io::MemorySource;
use adx_json::{JsonFault, read};
use adx_units::{Id, Text};
use fan_out::ANSWER_LIMIT;
use rtb_response::{AnswerFault, BidAnswer};
use std::alloc::Global;

/// A call whose answer is read whole: what was asked, and what came of the answer so far.
#[derive(Drop)]
pub(crate) struct Sample {
    asked: Vec<u8>,
    heard: Vec<u8>,
}

/// Where the body begins, after the empty line that ends a head.
fn body_at(bytes: &[u8]) -> Option<usize> {
    for at in 4..=bytes.len() {
        if bytes[..at].ends_with(b"\r\n\r\n") {
            return Some(at);
        }
    }
    None
}

/// Whether a head has a field of this name, which ends in a colon.
fn has_field(head: &[u8], name: &[u8]) -> bool {
    for at in 0..head.len() {
        if let Some(found) = head[at..].get(..name.len()) {
            if found.eq_ignore_ascii_case(name) {
                return true;
            }
        }
    }
    false
}

/// Whether the head is whole, and says where its body ends.
fn says_its_end(heard: &[u8]) -> bool {
    match body_at(heard) {
        Some(at) => {
            let Some(head) = heard.get(..at) else {
                return false;
            };
            has_field(head, b"\r\ncontent-length:") || has_field(head, b"\r\ntransfer-encoding:")
        }
        None => false,
    }
}

/// The id of a request that was asked with its head.
fn id_of(alloc: Global, asked: &[u8]) -> Option<Id> {
    let body = asked.get(body_at(asked)?..)?;
    let tree = read(alloc, body).ok()?;
    let text = tree.member("id")?.text()?;
    Id::of(alloc, text.as_str()).ok()?
}

/// Whether an answer has no bid, or one of a seat that the roster lets its bidder buy by.
fn has_a_seat(bidder: &Bidder<'_>, answer: &BidAnswer) -> bool {
    let mut bids = false;
    for seat in answer.seats.as_slice() {
        if seat.bids.len() != 0 {
            if bidder.has_seat(seat.seat.as_str()) {
                return true;
            }
            bids = true;
        }
    }
    !bids
}

/// What a body says; None where memory is refused.
fn body_says(alloc: Global, bidder: &Bidder<'_>, id: &Id, body: &[u8]) -> Option<Outcome> {
    let tree = match read(alloc, body) {
        Ok(tree) => tree,
        Err(JsonFault::OutOfMemory) => return None,
        Err(_) => return Some(Outcome::NoJson),
    };
    match BidAnswer::of(alloc, &tree, id) {
        Ok(answer) if has_a_seat(bidder, &answer) => Some(Outcome::Well),
        Ok(_) => Some(Outcome::NoSeat),
        Err(AnswerFault::OutOfMemory) => None,
        Err(_) => Some(Outcome::NoAnswer),
    }
}

impl Sample {
    /// Nothing was asked yet.
    pub(crate) fn new(alloc: Global) -> Sample {
        Sample {
            asked: Vec::new(alloc),
            heard: Vec::new(alloc),
        }
    }

    /// A piece was asked. False where memory is refused.
    pub(crate) fn ask(&mut self, piece: &[u8]) -> bool {
        self.asked.extend_from_slice(piece).is_ok()
    }

    /// A piece of the answer came, or its end, where it is empty: what the answer says, as soon as it is whole.
    pub(crate) fn hear(
        &mut self,
        alloc: Global,
        bidder: &Bidder<'_>,
        piece: &[u8],
    ) -> Option<Outcome> {
        self.heard.extend_from_slice(piece).ok()?;
        let heard = self.heard.as_slice();
        if !piece.is_empty() && !says_its_end(heard) {
            return None;
        }
        let mut source = MemorySource::new(alloc, heard, 0, &[]).ok()?;
        let mut conn = Conn::new(alloc, ANSWER_LIMIT).ok()?;
        match conn.read_response(&mut source) {
            Ok(response) => match response.status {
                200 => body_says(
                    alloc,
                    bidder,
                    &id_of(alloc, self.asked.as_slice())?,
                    response.body,
                ),
                _ => None,
            },
            Err(HttpFault::Cut) if !piece.is_empty() => None,
            Err(HttpFault::Cut) => Some(Outcome::HungUp),
            Err(_) => Some(Outcome::NoHttp),
        }
    }
}
