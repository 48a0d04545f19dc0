//! A world of two books, step by step: an exchange, the messages that it sent, and a bidder.
//!
//! The text is a roster of one bidder, a price line and the steps, with ` ; ` between them: `ask NOW REQUEST`, `win N`, `bill N`
//! and `loss N` of an award, `tick NOW`, `budget CAMPAIGN CHANGE UNITS`, `pump FATES` with a letter for each message (`H` held,
//! `M` without its reply, `T` through), `again N` of a message, `ack N` of a reply on its way, `restart` of the exchange and
//! `wake` of the bidder.
ghost use Rattle.std.specs.Prelude.{◌≡◌, ◌<◌, ◌≤◌, ◌^◌, [], IfOk, IfSome, true};
ghost use Rattle.campaign_book.specs.Accounts.{IsBudget};
ghost use Rattle.two_books.specs.Steps.{IsTimely};

use crate::readers::done;
use adx_json::read;
use adx_units::{BUDGET_LIMIT, OutOfMemory, Sequence, Units};
use bidder_core::Bidder;
use deal_floor::Roster;
use notice_book::{End, NoticeKind};
use rtb_request::BidRequest;
use std::alloc::Global;
use std::fmt::Write;
use two_books::{Fate, Step, World};

/// The roster of a line; none where it is none.
fn roster_of(alloc: Global, line: &str) -> Option<Roster> {
    Roster::of(alloc, &read(alloc, line.as_bytes()).ok()?).ok()
}

/// The bidder of a price line, with an empty ledger; none where it is none.
fn bidder_of(alloc: Global, line: &str) -> Option<Bidder>
    ensures { IfSome result (λ b. b.rows ≡ []) }
{
    Bidder::of(alloc, &read(alloc, line.as_bytes()).ok()?).ok()
}

/// The world of a roster and a price line before its first step; none where they are none, or memory is wanting.
fn world_of(alloc: Global, roster: &str, prices: &str) -> Option<World> {
    let roster = roster_of(alloc, roster)?;
    let bidder = bidder_of(alloc, prices)?;
    if roster.bidders.len() == 1 {
        World::new(alloc, roster, bidder).ok()
    } else {
        None
    }
}

/// The number that a text is, 0 where it is none.
fn number_of(text: &str) -> u32 {
    text.parse::<u32>().unwrap_or(0)
}

/// The ask of a moment and a request.
fn ask_of(alloc: Global, text: &str) -> Option<Step> {
    let (now, text) = text.split_once(' ')?;
    let request = BidRequest::of(alloc, &read(alloc, text.as_bytes()).ok()?).ok()?;
    Some(Step::Ask {
        request,
        now: u64::from(number_of(now)),
    })
}

/// The change of a budget with its campaign, its number and its units.
fn budget_of(text: &str) -> Option<Step> {
    let (campaign, text) = text.split_once(' ')?;
    let (change, units) = text.split_once(' ')?;
    Some(Step::Budget {
        campaign: number_of(campaign),
        change: number_of(change),
        budget: Units(u64::from(number_of(units))),
    })
}

/// The fate that a letter is.
fn fate_of(letter: char) -> Fate {
    match letter {
        'H' => Fate::Held,
        'M' => Fate::Mute,
        _ => Fate::Through,
    }
}

/// The pump whose messages meet these fates.
fn pump_of(alloc: Global, fates: &str) -> Option<Step> {
    let mut all = Vec::new(alloc);
    for letter in fates.chars() {
        all.push(fate_of(letter)).ok()?;
    }
    Some(Step::Pump {
        fates: Sequence::from(all),
    })
}

/// The step of a word and what comes after it; none where it is none, or memory is wanting.
fn step_of(alloc: Global, word: &str, rest: &str) -> Option<Step> {
    let award = number_of(rest);
    match word {
        "ask" => ask_of(alloc, rest),
        "win" => Some(Step::Notice {
            kind: NoticeKind::Win,
            award,
        }),
        "bill" => Some(Step::Notice {
            kind: NoticeKind::Bill,
            award,
        }),
        "loss" => Some(Step::Notice {
            kind: NoticeKind::Loss,
            award,
        }),
        "tick" => Some(Step::Tick {
            now: u64::from(award),
        }),
        "budget" => budget_of(rest),
        "pump" => pump_of(alloc, rest),
        "again" => Some(Step::Again { message: award }),
        "ack" => Some(Step::Acknowledge { reply: award }),
        "restart" => Some(Step::RestartExchange),
        "wake" => Some(Step::RestartBidder),
        _ => None,
    }
}

/// Whether a day takes the moment or the budget of a step.
fn is_timely(step: &Step) -> bool
    ensures { result ≡ true → IsTimely step.now }
{
    match step {
        Step::Ask { now, .. } | Step::Tick { now } => *now < 1 << 62,
        Step::Budget { change, budget, .. } => {
            *change >= 1 && budget.0 >= 1 && budget.0 <= BUDGET_LIMIT
        }
        Step::Notice { .. }
        | Step::Pump { .. }
        | Step::Again { .. }
        | Step::Acknowledge { .. }
        | Step::RestartExchange
        | Step::RestartBidder => true,
    }
}

/// Takes the step of a text; one that is none changes nothing.
fn take(alloc: Global, world: &mut World, text: &str) -> Result<(), OutOfMemory> {
    let (word, rest) = text.split_once(' ').unwrap_or((text, ""));
    match step_of(alloc, word, rest) {
        Some(step) if is_timely(&step) => world.step(&step),
        _ => Ok(()),
    }
}

/// The sum of the bills that the exchange has.
fn day_sum(world: &World) -> u64 {
    let awards = world.day().awards();
    let mut sum: u64 = 0;
    for n in 0..awards.len() {
        match awards.get(n) {
            Some(award) if award.end == Some(End::Billed) => {
                sum = sum.saturating_add(award.charge.0);
            }
            _ => {}
        }
    }
    sum
}

/// The sum of the bills that the bidder counted.
fn ledger_sum(world: &World) -> u64 {
    let mut sum: u64 = 0;
    for row in world.bidder().ledger() {
        if row.kind == NoticeKind::Bill {
            sum = sum.saturating_add(row.price.0);
        }
    }
    sum
}

/// Adds the money of each campaign: its budget, what is reserved and what is billed.
fn push_books(out: &mut String, world: &World) -> Result<(), OutOfMemory> {
    let book = world.day().book();
    for c in 0..book.count() {
        done(write!(
            out,
            " {}/{}/{}",
            book.budget(c).0,
            book.reserved(c).0,
            book.billed(c).0
        ))?;
    }
    Ok(())
}

/// Adds the pending posts: how many, and of each the place of its entry, its kind and its URL.
fn push_pending(out: &mut String, world: &World) -> Result<(), OutOfMemory> {
    done(write!(out, "; pending {}", world.pending().len()))?;
    for post in world.pending() {
        done(write!(
            out,
            ", {} {:?} {}",
            post.entry,
            post.kind,
            post.url.as_str()
        ))?;
    }
    Ok(())
}

/// Adds the ledger: how many rows, and each.
fn push_ledger(out: &mut String, world: &World) -> Result<(), OutOfMemory> {
    let rows = world.bidder().ledger();
    done(write!(out, "; ledger {}", rows.len()))?;
    for row in rows {
        done(write!(
            out,
            ", {} {} {:?} {}",
            row.auction.as_str(),
            row.bid.as_str(),
            row.kind,
            row.price.0
        ))?;
    }
    Ok(())
}

/// Adds what a world comes to.
fn push_world(out: &mut String, world: &World) -> Result<(), OutOfMemory> {
    done(write!(
        out,
        "sums {} {}; entries {}; books",
        day_sum(world),
        ledger_sum(world),
        world.day().entries().len()
    ))?;
    push_books(out, world)?;
    done(write!(
        out,
        "; messages {}; given up {}",
        world.messages().len(),
        world.undeliverable()
    ))?;
    push_pending(out, world)?;
    push_ledger(out, world)
}

/// Adds what a world comes to by its steps.
pub(crate) fn push_world_said(
    out: &mut String,
    alloc: Global,
    text: &str,
) -> Result<(), OutOfMemory> {
    let mut parts = text.split(" ; ");
    let roster = parts.next().unwrap_or("");
    let prices = parts.next().unwrap_or("");
    let Some(mut world) = world_of(alloc, roster, prices) else {
        return Ok(out.push_str("no world")?);
    };
    for step in parts {
        take(alloc, &mut world, step)?;
    }
    push_world(out, &world)
}
