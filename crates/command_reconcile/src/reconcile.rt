//! The reconciliation of a journal's day with a bidder's ledger.
ghost use Rattle.std.specs.Prelude.{◌≡◌, ◌≤◌, ◌++◌, [], List, Ok, OnOk, Result, length, string_bytes};
ghost use Rattle.adx_desk.specs.declared.fault.DeskFault.{DeskFault as DeskFaultValue};
ghost use Rattle.adx_io.specs.Talk.{HasCauses};
ghost use Rattle.adx_io.specs.TalkState.{place_of, state_of};
ghost use Rattle.adx_io.specs.declared.line_buffer.TheConstants.{CHUNK};
ghost use Rattle.command_reconcile.specs.Reading.{PutsReconciliation};
ghost use Rattle.command_reconcile.specs.Reconciling.{EndsLedger, EndsRead, LeavesDisk, at_end, no_bidder_line, no_row_line, reconciling};
ghost use Rattle.command_reconcile.specs.Runs.{RunsReconciliation};
ghost use Rattle.command_runs.specs.Meanings.{PutsEnd};
ghost use Rattle.command_runs.specs.Talks.{TalkWrote};
ghost use Rattle.command_runs.specs.declared.outcome.Outcome.TheVariants.{Refused};
ghost use Rattle.day_rules.specs.declared.entry.Entry.{Entry as EntryValue};

use crate::bill::Bill;
use crate::day_bills::{day_bills, place_named};
use crate::ledger::read_ledger;
use crate::walk::push_reconciliation;
use adx_desk::Desk;
use adx_io::{Sink, Source, Stop, Talk};
use adx_json::push_number;
use adx_units::OutOfMemory;
use command_runs::{Outcome, put_end};
use day_journal::Disk;
use day_rules::Entry;
use deal_floor::Roster;
use history_runs::{OnRoster, run_on_roster, tell_unopened};
use std::alloc::Global;

/// Puts that the roster has no such bidder.
fn refuse_bidder<S: Source, K: Sink>(talk: &mut Talk<'_, S, K>) -> Result<Outcome, Stop>
    requires unwritten { (state_of talk.old).out ≡ [] }
    ensures puts { PutsEnd Refused (state_of talk.old).held (state_of talk.new).held no_bidder_line result }
    ensures rest { (talk.new.source ≡ talk.old.source) × (talk.new.buffer ≡ talk.old.buffer) }
    ensures causes { HasCauses (state_of talk.old) (state_of talk.new) result }
    ensures same { place_of talk.new ≡ place_of talk.old }
{
    match talk.out.push_str("{\"answer\":\"bidder\"}\n") {
        Ok(()) => put_end(talk, Outcome::Refused),
        Err(_) => Err(Stop::OutOfMemory),
    }
}

/// Writes that the line with this number tells no row.
fn push_no_row(out: &mut String, number: u64) -> Result<(), OutOfMemory>
    ensures { OnOk result (string_bytes out.new ≡ string_bytes out.old ++ no_row_line number) }
{
    out.push_str("{\"answer\":\"ledger\",\"line\":")?;
    push_number(out, number)?;
    out.push_str("}\n")?;
    Ok(())
}

/// Puts that the line with this number tells no row.
fn refuse_line<S: Source, K: Sink>(talk: &mut Talk<'_, S, K>, number: u64) -> Result<Outcome, Stop>
    requires unwritten { (state_of talk.old).out ≡ [] }
    ensures puts { PutsEnd Refused (state_of talk.old).held (state_of talk.new).held (no_row_line number) result }
    ensures rest { (talk.new.source ≡ talk.old.source) × (talk.new.buffer ≡ talk.old.buffer) }
    ensures causes { HasCauses (state_of talk.old) (state_of talk.new) result }
    ensures same { place_of talk.new ≡ place_of talk.old }
{
    match push_no_row(talk.out, number) {
        Ok(()) => put_end(talk, Outcome::Refused),
        Err(_) => Err(Stop::OutOfMemory),
    }
}

/// Puts the reconciliation of the day's bills and the ledger's.
fn put_reconciliation<S: Source, K: Sink>(
    talk: &mut Talk<'_, S, K>,
    owed: Vec<Bill>,
    told: Vec<Bill>,
) -> Result<Outcome, Stop>
    requires unwritten { (state_of talk.old).out ≡ [] }
    ensures puts { PutsReconciliation owed.items told.items (state_of talk.old).held (state_of talk.new).held result }
    ensures rest { (talk.new.source ≡ talk.old.source) × (talk.new.buffer ≡ talk.old.buffer) }
    ensures causes { HasCauses (state_of talk.old) (state_of talk.new) result }
    ensures same { place_of talk.new ≡ place_of talk.old }
{
    match push_reconciliation(talk.out, owed, told) {
        Ok(()) => put_end(talk, Outcome::Done),
        Err(_) => Err(Stop::OutOfMemory),
    }
}

/// Reads the ledger of the bidder at that place, and puts its reconciliation with its bills of the day.
fn reconcile_bills<S: Source, K: Sink>(
    alloc: Global,
    owed: Vec<Bill>,
    talk: &mut Talk<'_, S, K>,
) -> Result<Outcome, Stop>
    requires unwritten { (state_of talk.old).out ≡ [] }
    requires ahead { length talk.old.buffer.now.pending ≤ CHUNK }
    ensures ran { TalkWrote (at_end (state_of talk.old).allowed (EndsLedger owed.items (state_of talk.old).allowed)) talk.old talk.new result }
    ensures ends { EndsRead result }
    ensures causes { HasCauses (state_of talk.old) (state_of talk.new) result }
    ensures same { place_of talk.new ≡ place_of talk.old }
{
    let mut told = Vec::new(alloc);
    match read_ledger(alloc, talk, &mut told) {
        Ok(None) => put_reconciliation(talk, owed, told),
        Ok(Some(number)) => refuse_line(talk, number),
        Err(stop) => Err(stop),
    }
}

/// Reconciles a history with the ledger of the bidder with that name.
fn reconcile_day<S: Source, K: Sink>(
    alloc: Global,
    name: &str,
    roster: &Roster,
    entries: &[Entry],
    talk: &mut Talk<'_, S, K>,
) -> Result<Outcome, Stop>
    requires unwritten { (state_of talk.old).out ≡ [] }
    requires ahead { length talk.old.buffer.now.pending ≤ CHUNK }
    ensures ran { TalkWrote (reconciling name.now roster.entry.now (state_of talk.old).allowed (Ok entries.now)) talk.old talk.new result }
    ensures ends { EndsRead result }
    ensures causes { HasCauses (state_of talk.old) (state_of talk.new) result }
    ensures same { place_of talk.new ≡ place_of talk.old }
{
    let bidders = roster.bidders.as_slice();
    let campaigns = roster.campaigns.as_slice();
    match place_named(bidders, name) {
        Some(bidder) => match day_bills(alloc, campaigns, bidder, entries) {
            Ok(owed) => reconcile_bills(alloc, owed, talk),
            Err(_) => Err(Stop::OutOfMemory),
        },
        None => refuse_bidder(talk),
    }
}

/// Opens a roster's day on its disk, and reconciles it.
fn open_day<S: Source, K: Sink, D: Disk>(
    alloc: Global,
    name: &str,
    roster: &Roster,
    disk: &mut D,
    talk: &mut Talk<'_, S, K>,
) -> Result<Outcome, Stop>
    requires unwritten { (state_of talk.old).out ≡ [] }
    requires ahead { length talk.old.buffer.now.pending ≤ CHUNK }
    ensures ran { (day : Result (List EntryValue) DeskFaultValue) × LeavesDisk D.Disk roster.entry.now day disk.old disk.new result
        × TalkWrote (reconciling name.now roster.entry.now (state_of talk.old).allowed day) talk.old talk.new result }
    ensures lasts { D.lasts disk.old disk.new }
    ensures causes { HasCauses (state_of talk.old) (state_of talk.new) result }
    ensures same { place_of talk.new ≡ place_of talk.old }
{
    match Desk::open(alloc, &mut *disk, roster) {
        Ok(desk) => {
            let ended = reconcile_day(alloc, name, roster, desk.entries(), talk);
            let _ = desk.leave();
            ended
        }
        Err(refused) => {
            let (fault, _) = refused;
            tell_unopened(talk, &fault)
        }
    }
}

/// The command that reconciles the ledger of a bidder.
#[derive(Drop)]
struct Reconciling<'a> {
    name: &'a str,
}

impl<D: Disk> OnRoster<D> for Reconciling<'_> {
    ghost use Rattle.std.specs.Prelude.{◌≡◌, List, ℕ, Result};
    ghost use Rattle.adx_desk.specs.declared.fault.DeskFault.{DeskFault};
    ghost use Rattle.command_reconcile.specs.Reconciling.{LeavesDisk, reconciling};
    ghost use Rattle.day_rules.specs.declared.entry.Entry.{Entry};

    ghost course = { List ℕ × Result (List Entry) DeskFault };

    ghost meaning = { λ r allowed c. reconciling c.0 r allowed c.1 };

    ghost leaves = { λ self r c old new result. (c.0 ≡ self.name.now) × LeavesDisk D.Disk r c.1 old new result };

    fn run_day<S: Source, K: Sink>(
        &self,
        alloc: Global,
        roster: &Roster,
        disk: &mut D,
        talk: &mut Talk<'_, S, K>,
    ) -> Result<Outcome, Stop> {
        open_day(alloc, self.name, roster, disk, talk)
    }
}

/// Reconciles the day that a journal keeps with the ledger of the bidder with that name.
///
/// The first line of the source is the roster's, by which the day is opened on the disk. Then the lines of the ledger are
/// read, as `adx bidder` gives them at `/ledger`: each is the one compact spelling of a notice that was counted. A line is
/// written for each auction and price, in units, of which the day's bills that the bidder's campaigns owe and the ledger's
/// bills have different numbers, by the bytes of the auction and then by the price; and after these the two sums. No entry
/// is added: the disk stands for the same history afterwards. Of the ledger only its bills are kept in memory.
///
/// `Done`: the sink took the whole reconciliation, which is the one of both sides: it has the sums alone just where they have
/// the same bills, and then the sums are equal. `Refused`: the first line isn't a roster's; or the roster has no bidder with
/// that name, and nothing of the ledger was read; or a line of the ledger isn't one, or is longer than `LINE_LIMIT` bytes, or
/// the input passes `INPUT_LIMIT` bytes in it. The sink took the answer that says so. `DiskFault`: the disk failed while the
/// day was opened, and the sink took nothing. `NoHistory`: the disk's file isn't a journal of the roster's day, and the sink
/// took the answer that says why. `Err`: the source or the sink failed, whose count rose then, or memory was refused; the sink
/// took a prefix of the output.
pub fn reconcile_ledger<S: Source, K: Sink, D: Disk>(
    alloc: Global,
    name: &str,
    source: &mut S,
    sink: &mut K,
    disk: &mut D,
) -> Result<Outcome, Stop>
    ensures runs { RunsReconciliation S.Source K.Sink D.Disk name.now source.old source.new sink.old sink.new disk.old disk.new result }
    ensures lasts { D.lasts disk.old disk.new }
{
    run_on_roster(alloc, &Reconciling { name }, source, sink, disk)
}
