//! A request for bids: its bidders, its tick and its ask.
ghost use Rattle.std.specs.Prelude.{◌≡◌, ◌⊎◌, ◌≤◌, [], length, IfOk, OnErr, string_bytes};
ghost use Rattle.adx_desk.specs.Rosters.{desk_terms};
ghost use Rattle.adx_json.specs.Spelling.{spelling};
ghost use Rattle.adx_json.specs.View.{tree_of};
ghost use Rattle.day_rules.specs.Asks.{IsUndecided, IsWellFormed};
ghost use Rattle.day_rules.specs.Replies.{ask as ask_call, seen_in};
ghost use Rattle.adx_desk.specs.DayDesks.{Looks};
ghost use Rattle.fan_out.specs.Gathering.{WereWorked};
ghost use Rattle.rtb_request.specs.ForBidders.{request_for_bidders};
ghost use Rattle.exchange_messages.specs.Asking.{AsksAt, LeavesCall, StopsAt, TakesCall};
ghost use Rattle.exchange_messages.specs.Floors.{Gave, IsMomentOf};
ghost use Rattle.fan_out.specs.Lanes.{works};
ghost use Rattle.exchange_messages.specs.Courses.{reply_of};
ghost use Rattle.exchange_messages.specs.Turns.{Gathers};

use crate::asks::make_ask;
use crate::clock::Clock;
use crate::gathering::{Given, Round};
use crate::replies::{answer_done, answer_fault, answer_tick_fault};
use adx_desk::DayDesk;
use adx_json::Json;
use adx_links::Link;
use adx_units::OutOfMemory;
use day_rules::{Ask, Seen};
use deal_floor::Roster;
use fan_out::{BidderAnswer, Lane};
use http_service::Answer as HttpAnswer;
use rtb_request::{BidRequest, push_for_bidders};
use std::alloc::Global;

/// The room with which the body that bidders are asked with begins, in bytes: that of a short one.
const BODY_ROOM: usize = 1_024;

/// What the bidders answer to a request; nobody is asked, and none answers, where the request or its id is in the
/// history.
pub(crate) fn gather_new<Y: DayDesk, L: Link + Drop, F: Fn(Round<'_, L>) -> Given<L>>(
    alloc: Global,
    desk: &mut Y,
    gatherer: &F,
    lanes: &mut Vec<Lane<L>>,
    tree: &Json,
    request: &BidRequest,
) -> Result<Vec<BidderAnswer>, OutOfMemory>
    requires always { F.IsAlwaysCallable gatherer.now }
    requires gives { (x y : _) → F.post gatherer.now x y → Gave L.Link x y }
    ensures gathers { IfOk result (λ v. Looks Y.runs desk.old desk.new (λ at.
        Gathers (works L.Link) (seen_in at request.now.id request.now.digest) (tree_of tree.now) request.now lanes.old.items lanes.new.items v.items)) }
    ensures left { OnErr result (Looks Y.runs desk.old desk.new (λ _.
        (lanes.new.items ≡ lanes.old.items)
        ⊎ WereWorked (works L.Link (spelling (request_for_bidders (tree_of tree.now))) request.now.id) lanes.old.items lanes.new.items)) }
    ensures place { Y.place desk.new ≡ Y.place desk.old }
{
    match desk.seen(request.id.as_str(), &request.digest) {
        Seen::New => {
            let mut body = String::with_capacity(alloc, BODY_ROOM)?;
            push_for_bidders(&mut body, tree)?;
            let (worked, given) = gatherer(Round {
                lanes: std::mem::replace(lanes, Vec::new(alloc)),
                body: body.as_str().as_bytes(),
                id: &request.id,
            });
            *lanes = worked;
            given
        }
        Seen::Same { .. } => Ok(Vec::new(alloc)),
        Seen::Other { .. } => Ok(Vec::new(alloc)),
    }
}

/// Takes an ask, and replies to it; the reply's body is put into `out`.
fn take_ask<Y: DayDesk>(
    alloc: Global,
    roster: &Roster,
    desk: &mut Y,
    ask: Ask,
    out: &mut String,
) -> Result<HttpAnswer, OutOfMemory>
    requires terms { Y.terms desk.old ≡ desk_terms roster.now }
    requires well_formed { IsWellFormed (length roster.now.campaigns) ask }
    requires undecided { IsUndecided ask }
    requires empty { string_bytes out.old ≡ [] }
    ensures taken { IfOk result (λ a. TakesCall Y.runs desk.old desk.new roster.entry.now (ask_call ask) (reply_of a (string_bytes out.new))) }
    ensures left { OnErr result (LeavesCall Y.runs desk.old desk.new (ask_call ask)) }
    ensures place { Y.place desk.new ≡ Y.place desk.old }
{
    match desk.ask(ask) {
        Ok(done) => answer_done(alloc, roster, &done.answer, done.ask.as_ref(), out),
        Err(fault) => match fault.told() {
            Some(told) => answer_fault(out, told),
            None => Err(OutOfMemory),
        },
    }
}

/// Asks a request by what its bidders answered, at the moment that the clock reports and after a tick at that moment; the
/// reply's body is put into `out`.
pub(crate) fn ask_now<Y: DayDesk, C: Clock>(
    alloc: Global,
    roster: &Roster,
    desk: &mut Y,
    clock: &C,
    request: &BidRequest,
    answers: Vec<BidderAnswer>,
    out: &mut String,
) -> Result<HttpAnswer, OutOfMemory>
    requires terms { Y.terms desk.old ≡ desk_terms roster.now }
    requires answers { length answers.items ≤ length roster.now.bidders }
    requires empty { string_bytes out.old ≡ [] }
    ensures asked { IfOk result (λ a. AsksAt Y.runs desk.old desk.new roster.entry.now (IsMomentOf (C.moment clock.entry.now))
        request.now answers.items (reply_of a (string_bytes out.new))) }
    ensures stopped { OnErr result (StopsAt Y.runs desk.old desk.new roster.entry.now (IsMomentOf (C.moment clock.entry.now))
        request.now answers.items ⊎ Y.runs desk.old desk.new []) }
    ensures place { Y.place desk.new ≡ Y.place desk.old }
{
    let now = clock.now();
    let ask = make_ask(alloc, request, roster, answers, now)?;
    match desk.tick(now) {
        Ok(_) => take_ask(alloc, roster, desk, ask, out),
        Err(_) => answer_tick_fault(out),
    }
}
