//! A lane: a bidder, the link to it, and what it answered.
ghost use Rattle.std.specs.Prelude.{◌≡◌, IfOk, Option, Result};
ghost use Rattle.adx_units.specs.declared.memory.OutOfMemory.{OutOfMemory};
ghost use Rattle.fan_out.specs.declared.answer.BidderAnswer.{BidderAnswer};
ghost use Rattle.fan_out.specs.declared.answer.TheConstants.{ANSWER_LIMIT as answer_limit};
ghost use Rattle.fan_out.specs.Lanes.{outcome_of, works};
ghost use Rattle.fan_out.specs.Lasts.{Leaves, answer_of, lane_of};

use crate::answer::{ANSWER_LIMIT, BidderAnswer, Refusal};
use crate::auction::Auction;
use crate::head::request_of;
use adx_http::{Conn, HttpFault, exchange};
use adx_links::Link;
use adx_units::{Id, OutOfMemory};
use deal_floor::Place;
use std::alloc::Global;

/// A bidder, where it is asked, and what it answered.
#[derive(Drop)]
pub struct Lane<L> {
    /// The bidder's place.
    pub place: Place,
    /// The link to it, on which nothing else is asked.
    pub link: L,
    /// What reads its answers; its limit bounds their bodies.
    pub conn: Conn,
    /// Where the lane's work leaves its answer; None between calls.
    pub last: Option<Result<BidderAnswer, OutOfMemory>>,
}

/// A copy of a place.
fn copy_of(alloc: Global, place: &Place) -> Result<Place, OutOfMemory>
    ensures { IfOk result (λ p. p ≡ place.now) }
{
    Ok(Place {
        name: place.name.copy(alloc)?,
        host: place.host.copy(alloc)?,
        port: place.port,
        path: place.path.copy(alloc)?,
    })
}

impl<L: Drop> Lane<L> {
    /// The lane to a bidder over a link. It has said nothing yet.
    pub fn to(alloc: Global, place: &Place, link: L) -> Result<Lane<L>, OutOfMemory>
        ensures place { IfOk result (λ l. l.place ≡ place.now) }
        ensures limit { IfOk result (λ l. l.conn.limit ≡ answer_limit) }
        ensures link { IfOk result (λ l. l.link ≡ link) }
    {
        Ok(Lane {
            place: copy_of(alloc, place)?,
            link,
            conn: Conn::new(alloc, ANSWER_LIMIT)?,
            last: None,
        })
    }
}

/// What is said of a bidder whose answer was heard.
fn answer_of(
    heard: Result<Result<BidderAnswer, OutOfMemory>, HttpFault>,
) -> Result<BidderAnswer, OutOfMemory>
    ensures { result ≡ answer_of heard }
{
    match heard {
        Ok(answer) => answer,
        Err(HttpFault::ReadFault) => Ok(BidderAnswer::LinkFault),
        Err(fault) => Ok(BidderAnswer::Refused(Refusal::Http(fault))),
    }
}

/// Asks a bidder at its place over a link, and says what it answered.
fn asked<L: Link>(
    alloc: Global,
    place: &Place,
    link: &mut L,
    conn: &mut Conn,
    body: &[u8],
    id: &Id,
) -> Result<BidderAnswer, OutOfMemory>
    ensures { (before now : Option (Result BidderAnswer OutOfMemory)) → works L.Link body.now id.now
        (lane_of place.now link.old conn.old before) (lane_of place.now link.new conn.new now) (outcome_of result) }
{
    match request_of(alloc, place, body) {
        Ok(request) => answer_of(exchange(
            link,
            conn,
            place.host.as_str(),
            place.port,
            request.as_slice(),
            Auction { alloc, id },
        )),
        Err(wanting) => Err(wanting),
    }
}

/// Asks a lane's bidder, and leaves in the lane what it answered.
pub(crate) fn work<L: Link>(alloc: Global, lane: &mut Lane<L>, body: &[u8], id: &Id)
    ensures { Leaves (works L.Link body.now id.now) lane.old lane.new }
{
    let answer = asked(alloc, &lane.place, &mut lane.link, &mut lane.conn, body, id);
    lane.last = Some(answer);
}
