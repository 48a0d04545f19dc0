//! What calls of the day are answered, and what is no call.
ghost use Rattle.std.specs.Prelude.{◌≡◌, ◌++◌, [], IfOk, IfSome, OnOk, string_bytes, option_map};
ghost use Rattle.day_rules.specs.Replies.{is_awarded as is_awarded_by};
ghost use Rattle.http_service.specs.Bodies.{plain as plain_of, refused_body};
ghost use Rattle.script_lines.specs.Whys.{why_of};
ghost use Rattle.exchange_messages.specs.Replies.{IsTold, fault_reply, refusal_reply, tick_fault_reply};
ghost use Rattle.exchange_messages.specs.Courses.{reply_of};
ghost use Rattle.exchange_messages.specs.Selling.{MayBeTold};
ghost use Rattle.exchange_messages.specs.Turns.{AnswerReplies, AskReplies};

use crate::outcomes::notice_reply;
use crate::path::methods_of;
use crate::refusal::Refusal;
use crate::sales::push_sale;
use adx_json::JsonFault;
use adx_units::OutOfMemory;
use allocator_core::AWARDED;
use answer_lines::{Fault, push_answer, push_fault};
use day_rules::{Answer, Ask};
use deal_floor::Roster;
use http_service::{Answer as HttpAnswer, Methods, disallowed, plain, push_body, push_refused};
use rtb_request::RequestFault;
use script_lines::{Refusal as LineRefusal, push_why};
use std::alloc::Global;

/// Writes why a body is refused.
fn push_body_refused(alloc: Global, out: &mut String, why: &LineRefusal) -> Result<(), OutOfMemory>
    ensures { OnOk result (string_bytes out.new ≡ string_bytes out.old ++ refused_body (why_of why.now)) }
{
    let mut text = String::new(alloc);
    push_why(&mut text, why)?;
    push_refused(out, text.as_str())
}

/// The reply to a message that is no call of the day, with its body in `out`. An error says that memory was refused, here
/// or before, as the refusal says.
pub fn refuse(alloc: Global, out: &mut String, why: Refusal) -> Result<HttpAnswer, OutOfMemory>
    requires { string_bytes out.old ≡ [] }
    ensures replied { IfOk result (λ a. reply_of a (string_bytes out.new) ≡ refusal_reply why) }
    ensures told { IfOk result (λ a. IsTold why) }
{
    match why {
        Refusal::Path => {
            push_refused(out, "path")?;
            Ok(plain(404))
        }
        Refusal::Method(path) => {
            push_refused(out, "method")?;
            Ok(disallowed(methods_of(path)))
        }
        Refusal::Call => {
            push_refused(out, "call")?;
            Ok(plain(400))
        }
        Refusal::Json(JsonFault::OutOfMemory) => Err(OutOfMemory),
        Refusal::Json(fault) => {
            push_body_refused(alloc, out, &LineRefusal::Json { fault })?;
            Ok(plain(400))
        }
        Refusal::Request(RequestFault::OutOfMemory) => Err(OutOfMemory),
        Refusal::Request(fault) => {
            push_body_refused(alloc, out, &LineRefusal::Request { fault })?;
            Ok(plain(400))
        }
    }
}

/// Whether an ask has a winner.
fn is_awarded(ask: &Ask) -> bool
    ensures { result ≡ is_awarded_by ask.entry.now }
{
    ask.offers
        .as_slice()
        .iter()
        .any(|offer| offer.reason == AWARDED)
}

/// The reply by the ask that the history keeps.
fn answer_sold(
    alloc: Global,
    roster: &Roster,
    ask: Option<&Ask>,
    out: &mut String,
) -> Result<HttpAnswer, OutOfMemory>
    requires empty { string_bytes out.old ≡ [] }
    requires told { IfSome ask (λ a. MayBeTold a.now) }
    ensures { IfOk result (λ a. AskReplies roster.entry.now (option_map (λ x. x.now) ask.entry) (reply_of a (string_bytes out.new))) }
{
    let Some(ask) = ask else {
        return Ok(plain(204));
    };
    if !is_awarded(ask) {
        return Ok(plain(204));
    }
    push_sale(alloc, roster, ask, out)?;
    Ok(HttpAnswer {
        status: 200,
        openrtb: true,
        allow: Methods::Unsaid,
    })
}

/// The reply to a call that was done, by its answer and the ask that it is about, with its body in `out`.
pub fn answer_done(
    alloc: Global,
    roster: &Roster,
    answer: &Answer,
    ask: Option<&Ask>,
    out: &mut String,
) -> Result<HttpAnswer, OutOfMemory>
    requires empty { string_bytes out.old ≡ [] }
    requires told { IfSome ask (λ a. MayBeTold a.now) }
    ensures { IfOk result (λ a. AnswerReplies roster.entry.now answer.now (option_map (λ x. x.now) ask.entry) (reply_of a (string_bytes out.new))) }
{
    match answer {
        Answer::Awarded { .. } | Answer::NoSale { .. } | Answer::Repeat { .. } => {
            answer_sold(alloc, roster, ask, out)
        }
        Answer::Counted
        | Answer::Ticked { .. }
        | Answer::Conflict { .. }
        | Answer::Unknown
        | Answer::Budgeted
        | Answer::NoCampaign => {
            let (given, body) = notice_reply(&Some(*answer));
            push_body(out, body)?;
            Ok(given)
        }
        Answer::Reused { .. }
        | Answer::BudgetReused { .. }
        | Answer::Late { .. }
        | Answer::BelowCommitted { .. } => {
            push_answer(out, roster.campaigns.as_slice(), answer, None)?;
            Ok(plain(409))
        }
        Answer::DayFull { .. } => {
            push_answer(out, roster.campaigns.as_slice(), answer, None)?;
            Ok(plain(503))
        }
    }
}

/// The reply to a call that was given up, with its body in `out`.
pub fn answer_fault(out: &mut String, fault: Fault) -> Result<HttpAnswer, OutOfMemory>
    requires { string_bytes out.old ≡ [] }
    ensures { IfOk result (λ a. reply_of a (string_bytes out.new) ≡ fault_reply fault) }
{
    push_fault(out, fault)?;
    match fault {
        Fault::Disk => Ok(plain(500)),
        Fault::JournalFull { .. } => Ok(plain(503)),
    }
}

/// The reply to a request whose tick the disk's fault gave up, with its body in `out`.
pub fn answer_tick_fault(out: &mut String) -> Result<HttpAnswer, OutOfMemory>
    requires { string_bytes out.old ≡ [] }
    ensures { IfOk result (λ a. reply_of a (string_bytes out.new) ≡ tick_fault_reply) }
{
    push_body(out, "{\"answer\":\"diskfault\",\"of\":\"tick\"}")?;
    Ok(plain(500))
}
