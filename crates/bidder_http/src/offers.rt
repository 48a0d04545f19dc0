//! Requests for bids.
ghost use Rattle.std.specs.Prelude.{◌≡◌, [], IfOk, string_bytes};
ghost use Rattle.adx_json.specs.View.{tree_of};
ghost use Rattle.bidder_core.specs.Answers.{answer_for};
ghost use Rattle.bidder_http.specs.Offers.{AnswersOffer, AnswersTree, OffersBy};

use crate::refusals::push_refusal;
use adx_json::{Json, JsonFault, push_value, read};
use adx_units::OutOfMemory;
use bidder_core::Bidder;
use http_service::{Answer, Methods, plain};
use rtb_request::{OfferedImps, RequestFault};
use script_lines::Refusal;
use std::alloc::Global;

/// Answers what a request offers with the bids that reach its floors.
fn answer_bids(
    alloc: Global,
    bidder: &Bidder,
    offered: &OfferedImps,
    body: &mut String,
) -> Result<Answer, OutOfMemory>
    requires { string_bytes body.old ≡ [] }
    ensures { IfOk result (λ a. OffersBy (answer_for bidder.now.line offered.now.id offered.now.imps) a (string_bytes body.new)) }
{
    match bidder.answer_offered(alloc, offered)? {
        Some(bids) => {
            push_value(body, &bids)?;
            Ok(Answer {
                status: 200,
                openrtb: true,
                allow: Methods::Unsaid,
            })
        }
        None => Ok(plain(204)),
    }
}

/// Answers a value, which is a request for bids or is refused.
fn answer_value(
    alloc: Global,
    bidder: &Bidder,
    value: &Json,
    body: &mut String,
) -> Result<Answer, OutOfMemory>
    requires { string_bytes body.old ≡ [] }
    ensures { IfOk result (λ a. AnswersTree bidder.now.line (tree_of value.now) a (string_bytes body.new)) }
{
    match OfferedImps::of(alloc, value) {
        Ok(offered) => answer_bids(alloc, bidder, &offered, body),
        Err(RequestFault::OutOfMemory) => Err(OutOfMemory),
        Err(fault) => {
            push_refusal(alloc, body, &Refusal::Request { fault })?;
            Ok(plain(400))
        }
    }
}

/// Answers a message's body, which is a request for bids or is refused.
pub(crate) fn answer_offer(
    alloc: Global,
    bidder: &Bidder,
    bytes: &[u8],
    body: &mut String,
) -> Result<Answer, OutOfMemory>
    requires { string_bytes body.old ≡ [] }
    ensures { IfOk result (λ a. AnswersOffer bidder.now.line bytes.now a (string_bytes body.new)) }
{
    match read(alloc, bytes) {
        Ok(value) => answer_value(alloc, bidder, &value, body),
        Err(JsonFault::OutOfMemory) => Err(OutOfMemory),
        Err(fault) => {
            push_refusal(alloc, body, &Refusal::Json { fault })?;
            Ok(plain(400))
        }
    }
}
