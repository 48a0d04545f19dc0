//! Asks of a script.
ghost use Rattle.std.specs.Prelude.{◌≡◌, ◌≤◌, ◌<◌, ◌^◌, length, IfOk, IfErr, OnOk};
ghost use Rattle.std.specs.List.{AllZip};
ghost use Rattle.adx_json.specs.View.{tree_of, trees_of};
ghost use Rattle.day_rules.specs.Asks.{IsWellFormed, IsUndecided};
ghost use Rattle.script_lines.specs.Members.{answers_in as answers_by, ask_moment as ask_moment_by};
ghost use Rattle.script_lines.specs.Meanings.{AskMeans, GivesAnswer};
ghost use Rattle.script_lines.specs.Found.{FindsAsk, FindsRequest};
ghost use Rattle.deal_floor.specs.Reading.{given};

use crate::making::make_ask;
use crate::members::{LineMembers, answers_in, ask_moment};
use crate::refusal::{LineFault, Refusal};
use adx_json::Json;
use adx_units::{Id, OutOfMemory};
use day_rules::Ask;
use deal_floor::Roster;
use rtb_request::{BidRequest, RequestFault};
use rtb_response::{AnswerFault, BidAnswer};
use std::alloc::Global;

/// The ask that a line with this request is.
pub(crate) fn ask_line(
    alloc: Global,
    roster: &Roster,
    request: &Json,
    members: LineMembers<'_>,
) -> Result<Ask, LineFault>
    ensures means { FindsAsk roster.entry.now (tree_of request.now)
        (answers_by (length roster.entry.now.bidders) (given members.entry.answers)) (ask_moment_by (given members.entry.now)) result }
    ensures well_formed { IfOk result (IsWellFormed (length roster.entry.now.campaigns)) }
    ensures undecided { IfOk result IsUndecided }
{
    let Some(answers) = answers_in(members.answers, roster.bidders.len()) else {
        return Err(LineFault::Refused {
            why: Refusal::NoCall,
        });
    };
    let Some(now) = ask_moment(members.now) else {
        return Err(LineFault::Refused {
            why: Refusal::NoCall,
        });
    };
    let request = match request_of(alloc, request) {
        Ok(request) => request,
        Err(fault) => return Err(fault),
    };
    let answers = answers_of(alloc, &request.id, answers)?;
    Ok(make_ask(alloc, &request, roster, answers, now)?)
}

/// The request that a tree is, or its first fault.
fn request_of(alloc: Global, tree: &Json) -> Result<BidRequest, LineFault>
    ensures { FindsRequest (tree_of tree.now) result }
{
    match BidRequest::of(alloc, tree) {
        Ok(request) => Ok(request),
        Err(RequestFault::OutOfMemory) => Err(LineFault::OutOfMemory),
        Err(fault) => Err(LineFault::Refused {
            why: Refusal::Request { fault },
        }),
    }
}

/// What each of some trees is as an answer to an auction.
fn answers_of(
    alloc: Global,
    auction: &Id,
    trees: &[Json],
) -> Result<Vec<Option<BidAnswer>>, OutOfMemory>
    ensures { IfOk result (λ answers. AllZip (GivesAnswer auction.now) (trees_of trees.now) answers.items) }
{
    let mut answers = Vec::new(alloc);
    for tree in trees {
        answers.push(answer_of(alloc, auction, tree)?)?;
    }
    Ok(answers)
}

/// The answer to an auction that a tree is. None where it has a fault.
fn answer_of(alloc: Global, auction: &Id, tree: &Json) -> Result<Option<BidAnswer>, OutOfMemory>
    ensures { IfOk result (GivesAnswer auction.now (tree_of tree.now)) }
{
    match BidAnswer::of(alloc, tree, auction) {
        Ok(answer) => Ok(Some(answer)),
        Err(AnswerFault::OutOfMemory) => Err(OutOfMemory),
        Err(_) => Ok(None),
    }
}
