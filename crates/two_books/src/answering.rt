//! The bidder's own answer, as the exchange reads it.
ghost use Rattle.std.specs.Prelude.{◌≡◌, Err, IfOk, false, option_map};
ghost use Rattle.adx_json.specs.View.{tree_of};
ghost use Rattle.bidder_core.specs.Answers.{answer_to};
ghost use Rattle.two_books.specs.Steps.{ReadsAnswer};
ghost use Rattle.std.specs.Prelude.{Some};

use adx_json::Json;
use adx_units::{Id, OutOfMemory};
use bidder_core::Bidder;
use rtb_request::BidRequest;
use rtb_response::{AnswerFault, BidAnswer};
use std::alloc::Global;

/// Reads an answer to the request with that id; one that is refused gives none.
fn read_answer(alloc: Global, id: &Id, tree: &Json) -> Result<Option<BidAnswer>, OutOfMemory>
    ensures { IfOk result (ReadsAnswer id.now (Some (tree_of tree.now))) }
{
    match BidAnswer::of(alloc, tree, id) {
        Ok(answer) => Ok(Some(answer)),
        Err(AnswerFault::OutOfMemory) => Err(OutOfMemory),
        Err(
            AnswerFault::NoId
            | AnswerFault::OtherId
            | AnswerFault::OtherCurrency
            | AnswerFault::BadField { .. }
            | AnswerFault::TooManyBids,
        ) => Ok(None),
    }
}

/// What the exchange reads of the bidder's answer to a request; nothing where the bidder doesn't answer.
pub(crate) fn answer_of(
    alloc: Global,
    bidder: &Bidder,
    request: &BidRequest,
) -> Result<Option<BidAnswer>, OutOfMemory>
    ensures { IfOk result (ReadsAnswer request.now.id (answer_to bidder.now.line request.now)) }
{
    match bidder.answer(alloc, request) {
        Ok(None) => Ok(None),
        Ok(Some(tree)) => read_answer(alloc, &request.id, &tree),
        Err(wanting) => Err(wanting),
    }
}
