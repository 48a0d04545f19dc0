//! The awards of a history, entry by entry.
ghost use Rattle.std.specs.Prelude.{◌≡◌, ◌+◌, ◌<◌, ◌≤◌, ◌^◌, ◌++◌, [], IfOk, OnOk, find, is_some, length};
ghost use Rattle.std.specs.List.{cons_option};
ghost use Rattle.notice_book.specs.AwardList.{expired_at, expired_by, first_due};
ghost use Rattle.day_rules.specs.Books.{awards_of};
ghost use Rattle.served_record.specs.Days.{IsServed};
ghost use Rattle.served_record.specs.Steps.{AskFits, Fits, award_for as award_of_imp, awards_after, awards_for, imps_of, is_award as is_award_for};

use adx_units::{Offer, OutOfMemory};
use allocator_core::AWARDED;
use day_rules::{Ask, Entry};
use notice_book::{Award, Awards, NoticeKind};
use std::alloc::Global;

/// The awards of a history, with what became of each: one pass over its entries.
pub(crate) fn awards_in(alloc: Global, entries: &[Entry]) -> Result<Awards, OutOfMemory>
    requires { IsServed entries.now }
    ensures { IfOk result (λ a. a.awards ≡ awards_of entries.now) }
{
    let mut awards = Awards::new(alloc);
    for (place, entry) in entries.iter().enumerate() {
        add(&mut awards, place as u32, entry)?;
    }
    Ok(awards)
}

/// Adds an entry, which is at that place.
fn add(awards: &mut Awards, place: u32, entry: &Entry) -> Result<(), OutOfMemory>
    requires { Fits awards.old.awards entry.now }
    ensures { OnOk result (awards.new.awards ≡ awards_after place entry.now awards.old.awards) }
{
    match entry {
        Entry::Ask(ask) => sell(awards, place, ask),
        Entry::Win { award } => {
            awards.apply(NoticeKind::Win, *award);
            Ok(())
        }
        Entry::Bill { award } => {
            awards.apply(NoticeKind::Bill, *award);
            Ok(())
        }
        Entry::Loss { award } => {
            awards.apply(NoticeKind::Loss, *award);
            Ok(())
        }
        Entry::Expire { now } => {
            expire(awards, *now);
            Ok(())
        }
        Entry::Budget { .. } => Ok(()),
    }
}

/// Adds what an ask at that place sold.
fn sell(awards: &mut Awards, place: u32, ask: &Ask) -> Result<(), OutOfMemory>
    requires { AskFits awards.old.awards ask.now }
    ensures { OnOk result (awards.new.awards ≡ awards.old.awards ++ awards_for place ask.entry.now (imps_of ask.entry.now)) }
{
    for imp in 0..ask.imps.len() {
        put(awards, award_for(ask, place, imp))?;
    }
    Ok(())
}

/// Adds an award, if there is one.
fn put(awards: &mut Awards, award: Option<Award>) -> Result<(), OutOfMemory>
    requires { length awards.old.awards + 1 < 2 ^ 32 }
    ensures { OnOk result (awards.new.awards ≡ awards.old.awards ++ cons_option award []) }
{
    match award {
        None => Ok(()),
        Some(award) => {
            awards.room(1)?;
            awards.push(award);
            Ok(())
        }
    }
}

/// The award of an ask's impression, if it has one.
fn award_for(ask: &Ask, place: u32, imp: usize) -> Option<Award>
    requires { ask.now.now < 2 ^ 63 }
    ensures { result ≡ award_of_imp place ask.entry.now imp }
{
    let offer = awarded(ask.offers.as_slice(), imp)?;
    Some(Award {
        ask: place,
        campaign: offer.campaign,
        charge: offer.charge,
        won: false,
        end: None,
        deadline: ask.now + u64::from(offer.life),
    })
}

/// The offer that was awarded for an impression.
fn awarded(offers: &[Offer], imp: usize) -> Option<Offer>
    ensures { result ≡ find (is_award_for imp) offers.now }
{
    offers.iter().copied().find(|offer| is_award(offer, imp))
}

/// Whether the offer was awarded for the impression.
fn is_award(offer: &Offer, imp: usize) -> bool
    ensures { result ≡ is_award_for imp offer.now }
{
    offer.reason == AWARDED && offer.imp as usize == imp
}

/// Ends all awards that the moment ends.
fn expire(awards: &mut Awards, now: u64)
    ensures { awards.new.awards ≡ expired_by now awards.old.awards }
{
    while expire_first(awards, now) {}
}

/// Ends the first award that the moment ends, and says whether there was one.
fn expire_first(awards: &mut Awards, now: u64) -> bool
    ensures some { result ≡ is_some (first_due now awards.old.awards) }
    ensures awards { awards.new.awards ≡ expired_at (first_due now awards.old.awards) awards.old.awards }
{
    awards.expire_next(now).is_some()
}
