//! Copies of the asks that a history keeps.
ghost use Rattle.std.specs.Prelude.{◌≡◌, option_map, IfOk};
ghost use Rattle.day_rules.specs.Entries.{asked};
ghost use Rattle.day_rules.specs.Books.{ask_at};
ghost use Rattle.adx_desk.specs.Asked.{ask_for};

use adx_units::{OutOfMemory, Sequence};
use day_entries::copy_of;
use day_rules::{Answer, Ask, Entry};
use std::alloc::Global;

/// A copy of the ask that an entry records; none for another entry.
pub(crate) fn copy_in(alloc: Global, entry: &Entry) -> Result<Option<Ask>, OutOfMemory>
    ensures { IfOk result (λ copy. copy ≡ asked entry.entry.now) }
{
    match entry {
        Entry::Ask(ask) => {
            let copy = copy_of(alloc, ask)?;
            Ok(Some(copy))
        }
        Entry::Win { .. } => Ok(None),
        Entry::Bill { .. } => Ok(None),
        Entry::Loss { .. } => Ok(None),
        Entry::Expire { .. } => Ok(None),
        Entry::Budget { .. } => Ok(None),
    }
}

/// The entry with the copy of its ask in the ask's place, and the ask that it had. The two are equal: what changes is
/// whose memory the entry holds.
pub(crate) fn swapped(entry: Entry, copy: Option<Ask>) -> (Entry, Option<Ask>)
    requires { copy ≡ asked entry }
    ensures kept { result.0 ≡ entry }
    ensures ask { result.1 ≡ asked entry }
{
    match copy {
        Some(exact) => match entry {
            Entry::Ask(planned) => (Entry::Ask(exact), Some(planned)),
            Entry::Win { .. } => (entry, Some(exact)),
            Entry::Bill { .. } => (entry, Some(exact)),
            Entry::Loss { .. } => (entry, Some(exact)),
            Entry::Expire { .. } => (entry, Some(exact)),
            Entry::Budget { .. } => (entry, Some(exact)),
        },
        None => (entry, None),
    }
}

/// The list in no more memory than its items need, where that is to be had.
fn fitted_list<T>(list: Sequence<T>) -> Sequence<T>
    ensures { result ≡ list }
{
    let mut items = list.into_vec();
    items.shrink_to_fit();
    Sequence::from(items)
}

/// The ask without the room that its lists were read with.
fn fitted_ask(ask: Ask) -> Ask
    ensures { result ≡ ask }
{
    let Ask {
        auction,
        digest,
        now,
        first,
        imps,
        offers,
        kept,
    } = ask;
    Ask {
        auction,
        digest,
        now,
        first,
        imps: fitted_list(imps),
        offers: fitted_list(offers),
        kept: fitted_list(kept),
    }
}

/// The entry as it is kept for long: an ask without the room that its lists were read with.
pub(crate) fn fitted(entry: Entry) -> Entry
    ensures { result ≡ entry }
{
    match entry {
        Entry::Ask(ask) => Entry::Ask(fitted_ask(ask)),
        Entry::Win { .. } => entry,
        Entry::Bill { .. } => entry,
        Entry::Loss { .. } => entry,
        Entry::Expire { .. } => entry,
        Entry::Budget { .. } => entry,
    }
}

/// A copy of the ask at a place of the history; none where no ask is there.
fn copy_at(alloc: Global, entries: &[Entry], place: u64) -> Result<Option<Ask>, OutOfMemory>
    ensures { IfOk result (λ copy. copy ≡ ask_at entries.now place) }
{
    match entries.get(place as usize) {
        Some(entry) => copy_in(alloc, entry),
        None => Ok(None),
    }
}

/// The ask at a place of the history; none where no ask is there.
fn lent_at(entries: &[Entry], place: u64) -> Option<&Ask>
    ensures { option_map (λ a. a.now) result ≡ ask_at entries.now place }
{
    match entries.get(place as usize) {
        Some(Entry::Ask(ask)) => Some(ask),
        Some(
            Entry::Win { .. }
            | Entry::Bill { .. }
            | Entry::Loss { .. }
            | Entry::Expire { .. }
            | Entry::Budget { .. },
        )
        | None => None,
    }
}

/// The ask that an answer speaks of.
pub(crate) fn lent_for(entries: &[Entry], answer: Answer) -> Option<&Ask>
    ensures { option_map (λ a. a.now) result ≡ ask_for entries.now answer }
{
    match answer {
        Answer::Awarded { entry } | Answer::NoSale { entry } | Answer::Repeat { entry } => {
            lent_at(entries, entry)
        }
        Answer::Counted
        | Answer::Conflict { .. }
        | Answer::Unknown
        | Answer::Ticked { .. }
        | Answer::Reused { .. }
        | Answer::DayFull { .. }
        | Answer::Budgeted
        | Answer::BudgetReused { .. }
        | Answer::Late { .. }
        | Answer::BelowCommitted { .. }
        | Answer::NoCampaign => None,
    }
}

/// A copy of the ask that an answer speaks of.
pub(crate) fn copy_for(
    alloc: Global,
    entries: &[Entry],
    answer: Answer,
) -> Result<Option<Ask>, OutOfMemory>
    ensures { IfOk result (λ copy. copy ≡ ask_for entries.now answer) }
{
    match answer {
        Answer::Awarded { entry } => copy_at(alloc, entries, entry),
        Answer::NoSale { entry } => copy_at(alloc, entries, entry),
        Answer::Repeat { entry } => copy_at(alloc, entries, entry),
        Answer::Counted => Ok(None),
        Answer::Conflict { kept: _ } => Ok(None),
        Answer::Unknown => Ok(None),
        Answer::Ticked { ended: _ } => Ok(None),
        Answer::Reused {
            kept_digest: _,
            given: _,
        } => Ok(None),
        Answer::DayFull { which: _, count: _ } => Ok(None),
        Answer::Budgeted => Ok(None),
        Answer::BudgetReused { kept: _ } => Ok(None),
        Answer::Late { last: _ } => Ok(None),
        Answer::BelowCommitted { committed: _ } => Ok(None),
        Answer::NoCampaign => Ok(None),
    }
}
