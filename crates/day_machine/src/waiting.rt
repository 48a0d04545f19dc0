//! One notice that waits in a batch, and what a day makes of such notices.
ghost use Rattle.std.specs.Prelude.{◌≡◌, ◌≤◌, ◌<◌, ◌+◌, ◌++◌, [], ◌∷◌, map, length, All, IfSome, MatchOption, vec_capacity, vec_len};
ghost use Rattle.std.specs.List.{flat_map};
ghost use Rattle.day_entries.specs.Entries.{Fits, IsNoticeOrMoment, entries_bytes};
ghost use Rattle.day_rules.specs.Books.{awards_of};
ghost use Rattle.day_rules.specs.DayState.{IsDay};
ghost use Rattle.day_rules.specs.Entries.{entry_of_notice};
ghost use Rattle.day_rules.specs.Laws.{Arrival, after_arrival, after_arrivals, arrival_reply};
ghost use Rattle.day_machine.specs.Answered.{entry_if, is_counted};
ghost use Rattle.day_machine.specs.Batches.{added_by, answers_in_turn};
ghost use Rattle.day_machine.specs.Held.{open_count};
ghost use Rattle.day_machine.specs.declared.batch.TheConstants.{BATCH_LIMIT};
ghost use Rattle.day_machine.specs.declared.held.TheConstants.{NOTICE_ROOM as notice_room};

use crate::day::{Day, entry_of, is_counted};
use crate::held::open_behind;
use crate::metered::MeteredDay;
use adx_io::Frame;
use arrayvec::ArrayString;
use day_entries::encode;
use day_rules::{Answer, Entry};
use notice_book::NoticeKind;
use std::marker::Model;

/// The longest id of an auction, in bytes.
pub(crate) const ID_LIMIT: usize = 128;

/// A notice of an award of an auction. It takes no memory of its own.
#[derive(Drop)]
pub(crate) struct Waiting {
    pub(crate) kind: NoticeKind,
    pub(crate) auction: ArrayString<ID_LIMIT>,
    pub(crate) award: u32,
}

impl Model for Waiting {
    ghost use Rattle.day_rules.specs.Laws.{Arrival};

    ghost Value = { Arrival };

    ghost view = { λ w. record { kind = w.kind; auction = w.auction.bytes; award = w.award } };
}

impl Waiting {
    /// A notice, where the auction's id is of 1 to 128 bytes.
    pub(crate) fn of(kind: NoticeKind, auction: &str, award: u32) -> Option<Waiting>
        ensures { MatchOption result ((1 ≤ length auction.now → length auction.now ≤ ID_LIMIT → ⊥))
            (λ w. (w ≡ record { kind = kind; auction = auction.now; award = award }) × (1 ≤ length auction.now) × (length auction.now ≤ ID_LIMIT)) }
    {
        if auction.is_empty() {
            return None;
        }
        match ArrayString::from(auction) {
            Ok(auction) => Some(Waiting {
                kind,
                auction,
                award,
            }),
            Err(_) => None,
        }
    }

    /// What a day answers.
    fn answer(&self, day: &Day) -> Answer
        ensures { result ≡ (arrival_reply day.now.history self.now).answer }
    {
        day.answer_notice(self.kind, self.auction.as_str(), self.award)
    }

    /// The entry of the notice where it counts.
    fn entry(&self) -> Entry
        ensures value { result ≡ entry_of_notice self.now.kind self.now.award }
        ensures kind { IsNoticeOrMoment result }
    {
        entry_of(self.kind, self.award)
    }
}

/// Puts the bytes of the entry of a notice after those in a frame, where its answer is that it counts, without memory.
fn put_behind(format: u8, frame: &mut Frame, call: &Waiting, answer: &Answer)
    requires room { 11 ≤ frame.old.spare }
    ensures payload { frame.new.payload ≡ frame.old.payload ++ entries_bytes format (added_by (entry_if (is_counted answer.now) call.now.kind call.now.award)) }
    ensures few { length frame.new.payload ≤ length frame.old.payload + 11 }
    ensures fits { All (Fits format) (added_by (entry_if (is_counted answer.now) call.now.kind call.now.award)) }
    ensures room { frame.old.spare + length frame.old.payload ≤ frame.new.spare + length frame.new.payload }
{
    if is_counted(answer) {
        let entry = call.entry();
        let encoded = encode(&entry, format, frame);
        prove!(encoded.is_ok());
    }
}

/// The answer of a day as it is to each notice, and in the frame the bytes of all their entries.
pub(crate) fn plan_all(
    format: u8,
    day: &Day,
    calls: &[Waiting],
    answers: &mut Vec<Answer>,
    frame: &mut Frame,
)
    requires few { length calls.now ≤ BATCH_LIMIT }
    requires none { answers.old.items ≡ [] }
    requires memory { BATCH_LIMIT ≤ vec_capacity answers.old }
    requires empty { frame.old.payload ≡ [] }
    requires room { notice_room ≤ frame.old.spare }
    ensures answers { answers.new.items ≡ map (λ x. (arrival_reply day.now.history x).answer) calls.now }
    ensures memory { BATCH_LIMIT ≤ vec_capacity answers.new }
    ensures payload { frame.new.payload ≡ entries_bytes format (flat_map (λ x. added_by (arrival_reply day.now.history x).entry) calls.now) }
    ensures fits { All (Fits format) (flat_map (λ x. added_by (arrival_reply day.now.history x).entry) calls.now) }
    ensures room { notice_room ≤ frame.new.spare + length frame.new.payload }
{
    for call in calls {
        let answer = call.answer(day);
        put_behind(format, frame, call, &answer);
        answers.push_reserved(answer);
    }
}

/// Adds to a day the entry of a notice, where its answer is that it counts, and says how many awards have no end then.
fn commit(day: &mut MeteredDay, without_end: u64, call: &Waiting, answer: &Answer) -> u64
    requires legal { IsDay day.old.terms day.old.history }
    requires counted { without_end ≡ open_count (awards_of day.old.history) }
    requires answer { answer.now ≡ (arrival_reply day.old.history call.now).answer }
    ensures terms { day.new.terms ≡ day.old.terms }
    ensures history { day.new.history ≡ after_arrival day.old.history call.now }
    ensures counted { result ≡ open_count (awards_of day.new.history) }
{
    if is_counted(answer) {
        let entry = call.entry();
        let left = open_behind(day.day(), without_end, &entry);
        day.commit(entry);
        left
    } else {
        without_end
    }
}

/// Adds to a day the entries of notices in their order, by their answers, and says how many awards have no end then.
pub(crate) fn commit_all(
    day: &mut MeteredDay,
    without_end: u64,
    calls: &[Waiting],
    answers: &[Answer],
) -> u64
    requires counted { without_end ≡ open_count (awards_of day.old.history) }
    requires answers { answers.now ≡ answers_in_turn day.old.history calls.now }
    ensures terms { day.new.terms ≡ day.old.terms }
    ensures history { day.new.history ≡ after_arrivals day.old.history calls.now }
    ensures counted { result ≡ open_count (awards_of day.new.history) }
{
    // What a metered day has is a day.
    let _ = day.day();
    let mut left = without_end;
    for (place, call) in calls.iter().enumerate() {
        let answer = &answers[place];
        left = commit(day, left, call, answer);
    }
    left
}
