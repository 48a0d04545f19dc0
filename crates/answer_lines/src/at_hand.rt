//! The ask that an answer is about.
ghost use Rattle.std.specs.Prelude.{◌≡◌, option_map};
ghost use Rattle.day_rules.specs.Books.{ask_at as ask_by_place};
ghost use Rattle.day_rules.specs.Entries.{asked as asked_in};
ghost use Rattle.answer_lines.specs.Answers.{ask_at_hand as at_hand_by, ask_told as told_by};

use day_rules::{Answer, Ask, Entry};

/// The ask that the answer of a call is about, before the call's entry is added to the history: that of
/// the entry; and where the call adds none, the one at the place that the answer names. None where the
/// answer is about no ask.
pub fn ask_at_hand<'a>(
    entries: &'a [Entry],
    answer: &Answer,
    entry: Option<&'a Entry>,
) -> Option<&'a Ask>
    ensures { option_map (λ a. a.now) result ≡ at_hand_by entries.now answer.now (option_map (λ e. e.now) entry.entry) }
{
    match entry {
        Some(entry) => asked(entry),
        None => ask_told(entries, answer),
    }
}

/// The ask that an answer is about, by the history that its call left: the one at the place that the
/// answer names.
fn ask_told<'a>(entries: &'a [Entry], answer: &Answer) -> Option<&'a Ask>
    ensures { option_map (λ a. a.now) result ≡ told_by entries.now answer.now }
{
    match answer {
        Answer::Awarded { entry } | Answer::NoSale { entry } | Answer::Repeat { entry } => {
            ask_at(entries, *entry)
        }
        Answer::Counted
        | Answer::Conflict { .. }
        | Answer::Unknown
        | Answer::Ticked { .. }
        | Answer::Reused { .. }
        | Answer::DayFull { .. }
        | Answer::Budgeted
        | Answer::BudgetReused { .. }
        | Answer::Late { .. }
        | Answer::BelowCommitted { .. }
        | Answer::NoCampaign => None,
    }
}

fn ask_at(entries: &[Entry], place: u64) -> Option<&Ask>
    ensures { option_map (λ a. a.now) result ≡ ask_by_place entries.now place }
{
    match entries.get(place as usize) {
        Some(entry) => asked(entry),
        None => None,
    }
}

/// The ask that an entry records, if it records one.
fn asked(entry: &Entry) -> Option<&Ask>
    ensures { option_map (λ a. a.now) result ≡ asked_in entry.entry.now }
{
    match entry {
        Entry::Ask(ask) => Some(ask),
        Entry::Win { .. }
        | Entry::Bill { .. }
        | Entry::Loss { .. }
        | Entry::Expire { .. }
        | Entry::Budget { .. } => None,
    }
}
