//! The desk as one who calls it sees it.
ghost use Rattle.std.specs.Prelude.{◌≡◌, ◌≤◌, ◌<◌, ◌^◌, [], ◌∷◌, length, Some, None, IfOk, IfErr, OnOk, OnErr, string_bytes};
ghost use Rattle.adx_desk.specs.Rosters.{desk_terms};
ghost use Rattle.adx_desk.specs.declared.fault.DeskFault.{DeskFault as Fault};
ghost use Rattle.campaign_book.specs.Accounts.{IsBudget};
ghost use Rattle.day_rules.specs.Asks.{IsUndecided, IsWellFormed};
ghost use Rattle.day_machine.specs.Batches.{AreApart};
ghost use Rattle.day_machine.specs.declared.batch.TheConstants.{BATCH_LIMIT as batch_limit};
ghost use Rattle.adx_desk.specs.DayDesks.{IsAsked, IsChanged, IsNoticed, IsTicked, Looks, Reads, RanTogether, ShowsBooks, Takes, ended_by, fault_of_disk};
ghost use Rattle.day_rules.specs.Entries.{change_of};
ghost use Rattle.day_rules.specs.Replies.{seen_in, ask as ask_call, notice as notice_call, set_budget as change_call, tick as tick_call};

use crate::done::Done;
use crate::fault::DeskFault;
use adx_units::{OutOfMemory, Units};
use day_machine::Batch;
use day_rules::{Answer, Ask, Meters, Seen};
use deal_floor::Roster;
use notice_book::NoticeKind;

/// The desk of a roster's day, as one who calls it sees it. Others may call it between his calls, where it is shared.
pub trait DayDesk {
    ghost use Rattle.std.specs.Prelude.{◌≡◌, ◌≤◌, ◌++◌, [], List, Option, length};
    ghost use Rattle.std.specs.Borrow.{GName};
    ghost use Rattle.adx_desk.specs.Histories.{DeskTerms};
    ghost use Rattle.day_rules.specs.declared.entry.Entry.{Entry};
    ghost use Rattle.day_rules.specs.declared.answer.Answer.{Answer};
    ghost use Rattle.day_rules.specs.Laws.{Arrival};
    ghost use Rattle.day_machine.specs.Batches.{AreApart};
    ghost use Rattle.day_machine.specs.declared.batch.TheConstants.{BATCH_LIMIT};
    ghost use Rattle.adx_desk.specs.Steps.{AreSteps, Step, Way};
    ghost use Rattle.adx_desk.specs.Together.{AreNoticed};

    /// What the desk was opened with.
    ghost terms: { Self → DeskTerms };

    /// The history that was seen last.
    ghost seen: { Self → List Entry };

    /// How its history goes on between two calls, and which meters are read beside it.
    ghost way: { Way };

    /// All that is said of these steps, from a desk to a later one.
    ghost runs: { Self → Self → List Step → Type 0 };

    /// A batch of these notices was given up by the disk's fault: none was taken.
    ghost lost: { Self → Self → List Arrival → Type 0 };

    /// The references that it uses, which no call exchanges.
    ghost place: { Self → List GName };

    /// Whether a request is in the history, by its auction and its digest.
    fn seen(&mut self, auction: &str, digest: &[u8; 32]) -> Seen
        ensures looks { Looks runs self.old self.new (λ at. result ≡ seen_in at auction.now digest.now) }
        ensures place { place self.new ≡ place self.old };

    /// Takes a tick at a moment in seconds. Its only fault is the disk's.
    fn tick(&mut self, now: u64) -> Result<Answer, DeskFault>
        requires { now < 2 ^ 63 }
        ensures done { IfOk result (IsTicked runs self.old self.new now) }
        ensures failed { OnErr result (Takes runs self.old self.new (tick_call now) fault_of_disk (λ _. Unit {0})) }
        ensures cause { IfErr result (λ fault. fault ≡ Fault.DiskFault) }
        ensures place { place self.new ≡ place self.old };

    /// Takes a notice of an award of an auction. Its only fault is the disk's.
    fn notice(&mut self, kind: NoticeKind, auction: &str, award: u32) -> Result<Answer, DeskFault>
        ensures done { IfOk result (IsNoticed runs self.old self.new (record { kind = kind; auction = auction.now; award = award })) }
        ensures failed { OnErr result (Takes runs self.old self.new (notice_call kind auction.now award) fault_of_disk (λ _. Unit {0})) }
        ensures cause { IfErr result (λ fault. fault ≡ Fault.DiskFault) }
        ensures place { place self.new ≡ place self.old };

    /// Takes an ask, which is given up on a refusal.
    fn ask(&mut self, ask: Ask) -> Result<Done, DeskFault>
        requires formed { IsWellFormed (length (terms self.old).day.budgets) ask }
        requires undecided { IsUndecided ask }
        ensures done { IfOk result (IsAsked (terms self.old).day runs self.old self.new ask) }
        ensures failed { IfErr result (λ e. Takes runs self.old self.new (ask_call ask) (ended_by e) (λ _. Unit {0})) }
        ensures place { place self.new ≡ place self.old };

    /// Takes a change of a campaign's budget, in units: its number is at least 1.
    fn set_budget(&mut self, campaign: u32, change: u32, budget: Units) -> Result<Answer, DeskFault>
        requires change { 1 ≤ change }
        requires budget { IsBudget budget }
        ensures done { IfOk result (IsChanged runs self.old self.new (terms self.old).day (change_of campaign change budget)) }
        ensures failed { IfErr result (λ e. Takes runs self.old self.new (change_call (change_of campaign change budget)) (ended_by e) (λ _. Unit {0})) }
        ensures place { place self.new ≡ place self.old };

    /// Takes the notices of a batch that didn't run, one after another with nothing between them. Where the disk's fault
    /// gave that up, none was taken.
    fn batch(&mut self, batch: &mut Batch) -> Result<(), DeskFault>
        requires waits { batch.old.answers ≡ None }
        requires few { length batch.old.calls ≤ batch_limit }
        requires apart { AreApart batch.old.calls }
        ensures done { OnOk result (RanTogether runs self.old self.new batch.old batch.new) }
        ensures failed { OnErr result (lost self.old self.new batch.old.calls × (batch.new ≡ batch.old)) }
        ensures cause { IfErr result (λ fault. fault ≡ Fault.DiskFault) }
        ensures place { place self.new ≡ place self.old };

    /// What an operator reads of the day.
    fn meters(&mut self) -> Meters
        ensures reads { Reads runs self.old self.new result }
        ensures place { place self.new ≡ place self.old };

    /// Writes the closing table of the day of the roster that the desk was opened with.
    fn push_books(&mut self, out: &mut String, roster: &Roster) -> Result<(), OutOfMemory>
        requires terms { terms self.old ≡ desk_terms roster.now }
        requires empty { string_bytes out.old ≡ [] }
        ensures looks { Looks runs self.old self.new (λ at. OnOk result (ShowsBooks roster.entry.now at (string_bytes out.new))) }
        ensures place { place self.new ≡ place self.old };

    /// No step changes nothing.
    ghost none: { (d : Self) → runs d d [] };

    /// Steps after steps.
    ghost join: { (a b c : Self) (first rest : List Step) → runs a b first → runs b c rest → runs a c (first ++ rest) };

    /// After a batch that was given up its notices are taken one by one, as if it hadn't been tried.
    ghost retried: { (a b c : Self) (notices : List Arrival) (outcomes : List (Option Answer)) (steps : List Step)
        → length notices ≤ BATCH_LIMIT → AreApart notices
        → lost a b notices → AreNoticed notices outcomes steps → runs b c steps → runs a c steps };

    /// The steps come one after another, from what was seen before to what is seen now.
    ghost along: { (a b : Self) (steps : List Step) → runs a b steps → AreSteps way (terms a) (seen a) steps (seen b) };

    /// What the desk was opened with stays.
    ghost same: { (a b : Self) (steps : List Step) → runs a b steps → terms b ≡ terms a };
}
