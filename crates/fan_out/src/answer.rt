//! What a bidder answered.
use adx_http::HttpFault;
use adx_json::JsonFault;
use rtb_response::{AnswerFault, BidAnswer};

/// The longest body of a bidder's answer, in bytes: the limit of a lane's connection.
pub const ANSWER_LIMIT: u32 = 262_144;

/// Why an answer was refused.
#[derive(Clone, Copy, Debug, PartialEq, Eq)]
pub enum Refusal {
    /// It is no response of HTTP/1.1 (RFC 9112); never `ReadFault`.
    Http(HttpFault),
    /// Its status is neither 200 nor 204 (RFC 9110, section 15).
    Status(u16),
    /// Its body is no JSON text (RFC 8259); never `OutOfMemory`.
    Json(JsonFault),
    /// Its body is no answer to the request (OpenRTB 2.6, section 4.2.1); never `OutOfMemory`.
    Answer(AnswerFault),
}

/// What a bidder answered.
#[derive(Debug, Drop)]
pub enum BidderAnswer {
    /// Status 200 and an answer with a bid.
    Bids(BidAnswer),
    /// Status 204, or 200 and an answer without a bid.
    NoBid,
    /// An answer that gives no bids.
    Refused(Refusal),
    /// The link to the bidder failed.
    LinkFault,
}
