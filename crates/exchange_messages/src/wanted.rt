//! What a message wants, as far as its head says.
ghost use Rattle.std.specs.Prelude.{◌≡◌, IfOk};
ghost use Rattle.http_connection.specs.Answers.{Shows};
ghost use Rattle.http_connection.specs.Messages.{Request};
ghost use Rattle.exchange_messages.specs.Meanings.{budget_query_meaning, query_meaning};
ghost use Rattle.exchange_messages.specs.Wants.{MeansSo, Wants, meaning_of};

use crate::path::{Path, is_served, path_named};
use crate::refusal::Refusal;
use adx_http::{Message, query_values, read_target};
use adx_units::{OutOfMemory, whole_up_to};
use notice_book::NoticeKind;
use script_lines::LAST_AWARD;
use std::alloc::Global;
use std::borrow::CowStr;

/// The texts of a query that name a change of a campaign's budget; what they spell isn't looked at yet.
#[derive(Drop)]
pub struct ChangeTexts<'a> {
    /// The campaign's seat.
    pub seat: CowStr<'a, Global>,
    /// The campaign's id.
    pub cid: CowStr<'a, Global>,
    /// The number of the change.
    pub number: CowStr<'a, Global>,
    /// The budget in dollars.
    pub budget: CowStr<'a, Global>,
}

/// What a message wants that is no notice, as far as its head says.
#[derive(Drop)]
pub enum Other<'a> {
    /// Bids, for the request in its body.
    Bids,
    /// The books.
    Books,
    /// The meters.
    Meters,
    /// That a campaign's budget is changed, where the texts are of their form.
    Budget(ChangeTexts<'a>),
    /// Nothing that a day is asked.
    Nothing(Refusal),
}

/// What a message wants, as far as its head says.
#[derive(Drop)]
pub enum Wanted<'a> {
    /// That a notice of an award of an auction is taken.
    Notice(NoticeKind, CowStr<'a, Global>, u32),
    /// Something else.
    Other(Other<'a>),
}

/// A notice of a kind by its query.
fn notice_in<'a>(
    alloc: Global,
    kind: NoticeKind,
    query: &'a [u8],
) -> Result<Wanted<'a>, OutOfMemory>
    ensures { IfOk result (λ w. meaning_of w ≡ Some (query_meaning kind query.now)) }
{
    let (auction, bid) = query_values(alloc, query, "auction", "bid")?;
    let Some(auction) = auction else {
        return Ok(Wanted::Other(Other::Nothing(Refusal::Call)));
    };
    let Some(bid) = bid else {
        return Ok(Wanted::Other(Other::Nothing(Refusal::Call)));
    };
    match whole_up_to(bid.as_str().as_bytes(), LAST_AWARD) {
        Some(award) => Ok(Wanted::Notice(kind, auction, award as u32)),
        None => Ok(Wanted::Other(Other::Nothing(Refusal::Call))),
    }
}

/// A change of a campaign's budget by its query.
fn change_in<'a>(alloc: Global, query: &'a [u8]) -> Result<Wanted<'a>, OutOfMemory>
    ensures { IfOk result (λ w. meaning_of w ≡ Some (budget_query_meaning query.now)) }
{
    let (seat, cid) = query_values(alloc, query, "seat", "cid")?;
    let (number, budget) = query_values(alloc, query, "change", "budget")?;
    let Some(seat) = seat else {
        return Ok(Wanted::Other(Other::Nothing(Refusal::Call)));
    };
    let Some(cid) = cid else {
        return Ok(Wanted::Other(Other::Nothing(Refusal::Call)));
    };
    let Some(number) = number else {
        return Ok(Wanted::Other(Other::Nothing(Refusal::Call)));
    };
    let Some(budget) = budget else {
        return Ok(Wanted::Other(Other::Nothing(Refusal::Call)));
    };
    Ok(Wanted::Other(Other::Budget(ChangeTexts {
        seat,
        cid,
        number,
        budget,
    })))
}

/// What a message to a path wants that the path is served by.
fn wanted_of<'a>(alloc: Global, path: Path, query: &'a [u8]) -> Result<Wanted<'a>, OutOfMemory>
    ensures { IfOk result (λ w. MeansSo path query.now w) }
{
    match path {
        Path::OpenRtb => Ok(Wanted::Other(Other::Bids)),
        Path::Notice(kind) => notice_in(alloc, kind, query),
        Path::Books => Ok(Wanted::Other(Other::Books)),
        Path::Meters => Ok(Wanted::Other(Other::Meters)),
        Path::Budget => change_in(alloc, query),
    }
}

/// What a message wants.
pub fn wanted_by<'a>(alloc: Global, message: &Message<'a>) -> Result<Wanted<'a>, OutOfMemory>
    ensures { IfOk result (λ w. (m : Request) → Shows message.now m → Wants m w) }
{
    let target = read_target(message.target);
    match path_named(target.path) {
        Some(path) => {
            if !is_served(path, message.verb) {
                return Ok(Wanted::Other(Other::Nothing(Refusal::Method(path))));
            }
            wanted_of(alloc, path, target.query)
        }
        None => Ok(Wanted::Other(Other::Nothing(Refusal::Path))),
    }
}
