//! Notices that a desk answers together, in one record.
ghost use Rattle.std.specs.Prelude.{◌≡◌, ◌≤◌, ◌+◌, ◌==◌, ◌++◌, [], ◌∷◌, map, length, All, Bool, Some, None, MatchBool, IfOk, option_and_then, option_map, slice_get, vec_capacity};
ghost use Rattle.std.specs.List.{flat_map, list_any};
ghost use Rattle.day_entries.specs.Entries.{Fits, entries_bytes};
ghost use Rattle.day_rules.specs.Books.{awards_of};
ghost use Rattle.day_rules.specs.Laws.{Arrival, after_arrivals, arrival_reply};
ghost use Rattle.day_machine.specs.Batches.{AreApart, BatchState, MayJoin, joined, added_by, answers_in_turn};
ghost use Rattle.day_machine.specs.Held.{open_count};
ghost use Rattle.day_machine.specs.declared.held.TheConstants.{NOTICE_ROOM as notice_room};

use crate::day::Day;
use crate::metered::MeteredDay;
use crate::waiting::{Waiting, commit_all, plan_all};
use adx_io::Frame;
use adx_units::OutOfMemory;
use day_rules::Answer;
use notice_book::NoticeKind;
use std::alloc::Global;
use std::marker::Model;

/// How many calls a batch has at most.
pub const BATCH_LIMIT: usize = 32;

/// Up to 32 notices, no two of one award, which a desk answers together: it writes their entries as one record. A contract
/// sees the calls, and the answer of each once the batch ran.
#[derive(Drop)]
pub struct Batch {
    calls: Vec<Waiting>,
    answers: Vec<Answer>,
    ran: bool,
}

impl Model for Batch {
    ghost use Rattle.std.specs.Prelude.{vec_capacity};
    ghost use Rattle.day_machine.specs.Batches.{BatchState};
    ghost use Rattle.day_machine.specs.BatchFields.{AreCalls, answers_by};

    ghost Value = { BatchState };

    ghost view = { λ b. record { calls = b.calls.items; answers = answers_by b.ran b.answers.items } };

    ghost invariant = { λ b. AreCalls b.calls.items b.answers.items b.ran (vec_capacity b.calls) (vec_capacity b.answers) };
}

impl Batch {
    /// A batch without calls, with all the memory that it ever takes.
    pub fn new(alloc: Global) -> Result<Batch, OutOfMemory>
        ensures { IfOk result (λ b. b ≡ record { calls = []; answers = None }) }
    {
        let calls = Vec::with_capacity(alloc, BATCH_LIMIT)?;
        let answers = Vec::with_capacity(alloc, BATCH_LIMIT)?;
        Ok(Batch {
            calls,
            answers,
            ran: false,
        })
    }

    /// Adds a notice of an award of an auction after the others. False, and nothing is changed, exactly where the batch
    /// ran, has 32 calls or one of that award, or the auction's id isn't of 1 to 128 bytes.
    pub fn add(&mut self, kind: NoticeKind, auction: &str, award: u32) -> bool
        ensures { MatchBool result
            (MayJoin self.old (record { kind = kind; auction = auction.now; award = award }) × (self.new ≡ joined self.old (record { kind = kind; auction = auction.now; award = award })))
            ((MayJoin self.old (record { kind = kind; auction = auction.now; award = award }) → ⊥) × (self.new ≡ self.old)) }
    {
        if self.ran || self.calls.as_slice().len() >= BATCH_LIMIT || self.has(award) {
            return false;
        }
        match Waiting::of(kind, auction, award) {
            Some(call) => {
                self.calls.push_reserved(call);
                true
            }
            None => false,
        }
    }

    /// Whether a call is of that award.
    fn has(&self, award: u32) -> bool
        ensures { result ≡ list_any (λ (c : Arrival). award == c.award) self.now.calls }
    {
        self.calls.iter().any(|call| award == call.award)
    }

    /// How many calls there are: at most 32.
    pub fn len(&self) -> u32
        ensures value { result ≡ length self.now.calls }
        ensures few { result ≤ BATCH_LIMIT }
    {
        self.calls.as_slice().len() as u32
    }

    /// The answer to the call with this place, from 0; None exactly where there is no such call or the batch didn't run.
    pub fn answer(&self, i: u32) -> Option<Answer>
        ensures { result ≡ option_and_then (λ answers. slice_get answers i) self.now.answers }
    {
        self.answers.get(i as usize).copied()
    }

    /// The call with this place, from 0: its kind, the auction's id and the award; None exactly where there is no such call.
    pub fn call(&self, i: u32) -> Option<(NoticeKind, &str, u32)>
        ensures { option_map (λ c. record { kind = c.0; auction = c.1.now; award = c.2 }) result ≡ slice_get self.now.calls i }
    {
        match self.calls.get(i as usize) {
            Some(call) => Some((call.kind, call.auction.as_str(), call.award)),
            None => None,
        }
    }

    /// Takes all calls out, and keeps the memory.
    pub fn clear(&mut self)
        ensures { self.new ≡ record { calls = []; answers = None } }
    {
        self.calls.clear();
        self.answers.clear();
        self.ran = false;
    }

    /// Answers each call by the day as it is, and puts the bytes of their entries in a journal of this format into
    /// the frame.
    pub fn run(&mut self, format: u8, day: &Day, frame: &mut Frame)
        requires waits { self.old.answers ≡ None }
        requires frame { notice_room ≤ frame.old.spare + length frame.old.payload }
        ensures apart { AreApart self.old.calls }
        ensures few { length self.old.calls ≤ BATCH_LIMIT }
        ensures answers { self.new ≡ record self.old { answers = Some (map (λ x. (arrival_reply day.now.history x).answer) self.old.calls) } }
        ensures payload { frame.new.payload ≡ entries_bytes format (flat_map (λ x. added_by (arrival_reply day.now.history x).entry) self.old.calls) }
        ensures fits { All (Fits format) (flat_map (λ x. added_by (arrival_reply day.now.history x).entry) self.old.calls) }
        ensures frame { notice_room ≤ frame.new.spare + length frame.new.payload }
    {
        frame.clear();
        plan_all(format, day, &self.calls, &mut self.answers, frame);
        self.ran = true;
    }

    /// Adds the entries of the calls to the day, each after those before it, and says how many awards have no end then, where
    /// so many had none before. The day is the one by which the batch ran, and took no entry since: its answers say which
    /// calls add an entry, so that no call is answered again.
    pub fn commit(&self, day: &mut MeteredDay, without_end: u64) -> u64
        requires counted { without_end ≡ open_count (awards_of day.old.history) }
        requires answers { self.now.answers ≡ Some (answers_in_turn day.old.history self.now.calls) }
        ensures terms { day.new.terms ≡ day.old.terms }
        ensures history { day.new.history ≡ after_arrivals day.old.history self.now.calls }
        ensures counted { result ≡ open_count (awards_of day.new.history) }
    {
        commit_all(day, without_end, &self.calls, &self.answers)
    }

    /// Takes the answers back: the batch didn't run.
    pub fn wait(&mut self)
        ensures { self.new ≡ record self.old { answers = None } }
    {
        self.answers.clear();
        self.ran = false;
    }
}
