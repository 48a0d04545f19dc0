//! The bytes of the journal that are held for the notices and expiries of a history.
ghost use Rattle.std.specs.Prelude.{◌≡◌, ◌≤◌, ◌++◌, [], ◌∷◌, slice_get};
ghost use Rattle.day_rules.specs.Books.{awards_of};
ghost use Rattle.day_rules.specs.DayState.{IsDay};
ghost use Rattle.day_rules.specs.Legal.{MayFollow};
ghost use Rattle.day_machine.specs.Held.{expiry_record as expiry_record_of, held, notice_record as notice_record_of, open_count, open_one};
ghost use Rattle.day_machine.specs.declared.held.TheConstants.{EXPIRY_IN_GROUPS, NOTICE_IN_GROUPS};

use crate::day::Day;
use crate::sales::sale_count;
use day_rules::Entry;
use notice_book::Awards;

/// The bytes of a record beside its payload: its gate and its length.
pub const RECORD_OVERHEAD: u64 = 5;

/// The bytes of the longest record of a notice in format 1.
const NOTICE_RECORD: u64 = 10;

/// The bytes of the longest record of an expiry in format 1.
const EXPIRY_RECORD: u64 = 14;

/// The bytes of the longest record of a notice in format 2.
const NOTICE_IN_GROUPS: u64 = 11;

/// The bytes of the longest record of an expiry in format 2.
const EXPIRY_IN_GROUPS: u64 = 16;

/// The bytes of as many entries of notices and moments as a batch has calls, each as long as the longest.
pub const NOTICE_ROOM: usize = 352;

/// The greatest size of a journal with what is held, in bytes.
pub const GREATEST_SIZE: u64 = 1 << 32;

/// 1 where the award with that number has no end, and else 0.
fn open_at(awards: &Awards, n: u32) -> u64
    ensures { result ≡ open_one (slice_get awards.now.awards n) }
{
    match awards.get(n) {
        Some(award) => match award.end {
            None => 1,
            Some(_) => 0,
        },
        None => 0,
    }
}

/// How many awards have no end.
pub fn open_awards(awards: &Awards) -> u64
    ensures { result ≡ open_count awards.now.awards }
{
    let mut open = 0;
    for n in 0..awards.len() {
        open += open_at(awards, n);
    }
    open
}

/// The bytes of the longest record of a notice in a journal of this format.
pub fn notice_record(format: u8) -> u64
    ensures value { result ≡ notice_record_of format }
    ensures few { result ≤ NOTICE_IN_GROUPS }
{
    if format == 2 {
        NOTICE_IN_GROUPS
    } else {
        NOTICE_RECORD
    }
}

/// The bytes of the longest record of an expiry in a journal of this format.
pub fn expiry_record(format: u8) -> u64
    ensures value { result ≡ expiry_record_of format }
    ensures few { result ≤ EXPIRY_IN_GROUPS }
    ensures more { notice_record_of format ≤ result }
{
    if format == 2 {
        EXPIRY_IN_GROUPS
    } else {
        EXPIRY_RECORD
    }
}

/// The bytes that a journal of this format holds for notices and expiries, where so many awards have no end.
pub fn held_by(format: u8, day: &Day, without_end: u64) -> u64
    requires legal { IsDay day.now.terms day.now.history }
    requires counted { without_end ≡ open_count (awards_of day.now.history) }
    ensures { result ≡ held format day.now.history }
{
    let notice = notice_record(format);
    notice * day.to_come() + (expiry_record(format) - notice) * without_end
}

/// How many awards have no end after an entry, where so many had none before.
pub fn open_behind(day: &Day, without_end: u64, entry: &Entry) -> u64
    requires legal { IsDay day.now.terms day.now.history }
    requires counted { without_end ≡ open_count (awards_of day.now.history) }
    requires follows { MayFollow day.now.terms day.now.history entry.now }
    ensures { result ≡ open_count (awards_of (day.now.history ++ entry.entry.now ∷ [])) }
{
    match entry {
        Entry::Ask(ask) => without_end + sale_count(ask) as u64,
        Entry::Win { .. } => without_end,
        Entry::Bill { .. } => without_end - 1,
        Entry::Loss { .. } => without_end - 1,
        Entry::Expire { now } => without_end - u64::from(day.awards().due(*now)),
        Entry::Budget { .. } => without_end,
    }
}
