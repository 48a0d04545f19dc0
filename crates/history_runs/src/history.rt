//! What is printed of a day's history.
ghost use Rattle.std.specs.Prelude.{◌≡◌, ◌≤◌, [], length};
ghost use Rattle.adx_io.specs.Talk.{HasCauses};
ghost use Rattle.adx_io.specs.TalkState.{place_of, state_of};
ghost use Rattle.adx_io.specs.declared.line_buffer.TheConstants.{CHUNK};
ghost use Rattle.adx_desk.specs.Rosters.{desk_terms};
ghost use Rattle.command_runs.specs.Documents.{document};
ghost use Rattle.command_runs.specs.Meanings.{PutsEnd};
ghost use Rattle.command_runs.specs.Talks.{TalkWrote};
ghost use Rattle.command_runs.specs.declared.outcome.Outcome.TheVariants.{Refused};
ghost use Rattle.day_rules.specs.DayState.{IsDay};
ghost use Rattle.history_runs.specs.Histories.{LeavesDay, Opening, PrintsDay, PutsTold, tells};
ghost use Rattle.history_runs.specs.Histories.Opening.{opened};
ghost use Rattle.history_runs.specs.Runs.{RunsHistory};
ghost use Rattle.script_lines.specs.Refusals.{roster_refused_line};
ghost use Rattle.script_lines.specs.declared.refusal.RosterRefusal.TheVariants.{Long};

use crate::on_roster::{OnRoster, run_on_roster};
use crate::opening::tell_unopened;
use crate::roster::push_roster_lack;
use adx_desk::Desk;
use adx_io::{Rest, Sink, Source, Stop, Talk};
use command_runs::{NoLine, Outcome, put_end, skip_rest};
use day_journal::Disk;
use day_rules::Entry;
use deal_floor::Roster;
use std::alloc::Global;

/// A command's own part where it prints something of a day's history.
pub trait Print {
    ghost use Rattle.std.specs.Prelude.{◌≡◌, []};
    ghost use Rattle.adx_io.specs.Talk.{HasCauses};
    ghost use Rattle.adx_io.specs.TalkState.{place_of, state_of};
    ghost use Rattle.adx_desk.specs.Rosters.{desk_terms};
    ghost use Rattle.day_rules.specs.DayState.{IsDay};
    ghost use Rattle.history_runs.specs.Histories.{Printed, Prints};

    /// What is printed of which history.
    ghost prints: { Prints };

    /// Puts what is printed of the history of a roster's day into the sink, in one piece or several. Nothing is asked of
    /// the source.
    fn print<S: Source, K: Sink>(
        &self,
        alloc: Global,
        roster: &Roster,
        entries: &[Entry],
        talk: &mut Talk<'_, S, K>,
    ) -> Result<(), Stop>
        requires unwritten { (state_of talk.old).out ≡ [] }
        requires day { IsDay (desk_terms roster.now).day entries.now }
        ensures printed { Printed prints roster.entry.now entries.now (K.held talk.old.sink.now) (K.held talk.new.sink.now) result }
        ensures rest { talk.new.source ≡ talk.old.source }
        ensures causes { HasCauses (state_of talk.old) (state_of talk.new) result }
        ensures same { place_of talk.new ≡ place_of talk.old };
}

/// Prints of a history, and ends the run.
fn print_history<P: Print, S: Source, K: Sink>(
    alloc: Global,
    print: &P,
    roster: &Roster,
    entries: &[Entry],
    talk: &mut Talk<'_, S, K>,
) -> Result<Outcome, Stop>
    requires unwritten { (state_of talk.old).out ≡ [] }
    requires day { IsDay (desk_terms roster.now).day entries.now }
    ensures puts { PutsTold P.prints roster.entry.now (opened entries.now) (state_of talk.old).held (state_of talk.new).held result }
    ensures rest { talk.new.source ≡ talk.old.source }
    ensures causes { HasCauses (state_of talk.old) (state_of talk.new) result }
    ensures same { place_of talk.new ≡ place_of talk.old }
{
    match print.print(alloc, roster, entries, talk) {
        Ok(()) => Ok(Outcome::Done),
        Err(stop) => Err(stop),
    }
}

/// Opens a roster's day on its disk, and prints of its history.
fn print_day<P: Print, S: Source, K: Sink, D: Disk>(
    alloc: Global,
    print: &P,
    roster: &Roster,
    disk: &mut D,
    talk: &mut Talk<'_, S, K>,
) -> Result<Outcome, Stop>
    requires unwritten { (state_of talk.old).out ≡ [] }
    ensures puts { PrintsDay D.Disk P.prints roster.entry.now disk.old disk.new (state_of talk.old).held (state_of talk.new).held result }
    ensures lasts { D.lasts disk.old disk.new }
    ensures rest { talk.new.source ≡ talk.old.source }
    ensures causes { HasCauses (state_of talk.old) (state_of talk.new) result }
    ensures same { place_of talk.new ≡ place_of talk.old }
{
    match Desk::open(alloc, &mut *disk, roster) {
        Ok(desk) => {
            let ended = print_history(alloc, print, roster, desk.entries(), talk);
            let _ = desk.leave();
            ended
        }
        Err(refused) => {
            let (fault, _) = refused;
            tell_unopened(talk, &fault)
        }
    }
}

/// Puts that the input of a roster is too long.
fn tell_long<S: Source, K: Sink>(alloc: Global, talk: &mut Talk<'_, S, K>) -> Result<Outcome, Stop>
    requires unwritten { (state_of talk.old).out ≡ [] }
    ensures puts { PutsEnd Refused (state_of talk.old).held (state_of talk.new).held (roster_refused_line Long) result }
    ensures rest { talk.new.source ≡ talk.old.source }
    ensures causes { HasCauses (state_of talk.old) (state_of talk.new) result }
    ensures same { place_of talk.new ≡ place_of talk.old }
{
    match push_roster_lack(alloc, talk.out, NoLine::Long) {
        Ok(()) => put_end(talk, Outcome::Refused),
        Err(_) => Err(Stop::OutOfMemory),
    }
}

/// Reads what comes after a roster's line, and prints of its day.
fn print_rest<P: Print, S: Source, K: Sink, D: Disk>(
    alloc: Global,
    print: &P,
    roster: &Roster,
    disk: &mut D,
    talk: &mut Talk<'_, S, K>,
) -> Result<Outcome, Stop>
    requires unwritten { (state_of talk.old).out ≡ [] }
    requires ahead { length talk.old.buffer.now.pending ≤ CHUNK }
    ensures ran { (o : Opening) × LeavesDay D.Disk roster.entry.now o disk.old disk.new result
        × TalkWrote (document (state_of talk.old).allowed (tells P.prints roster.entry.now o)) talk.old talk.new result }
    ensures lasts { D.lasts disk.old disk.new }
    ensures causes { HasCauses (state_of talk.old) (state_of talk.new) result }
    ensures same { place_of talk.new ≡ place_of talk.old }
{
    match skip_rest(talk) {
        Ok(Rest::Whole) => print_day(alloc, print, roster, disk, talk),
        Ok(Rest::PastLimit) => tell_long(alloc, talk),
        Err(stop) => Err(stop),
    }
}

/// A command that prints something of a history.
#[derive(Drop)]
struct Printing<'a, P> {
    print: &'a P,
}

impl<P: Print, D: Disk> OnRoster<D> for Printing<'_, P> {
    ghost use Rattle.command_runs.specs.Documents.{document};
    ghost use Rattle.history_runs.specs.Histories.{LeavesDay, Opening, tells};

    ghost course = { Opening };

    ghost meaning = { λ r allowed o. document allowed (tells P.prints r o) };

    ghost leaves = { λ _ r o old new result. LeavesDay D.Disk r o old new result };

    fn run_day<S: Source, K: Sink>(
        &self,
        alloc: Global,
        roster: &Roster,
        disk: &mut D,
        talk: &mut Talk<'_, S, K>,
    ) -> Result<Outcome, Stop> {
        print_rest(alloc, self.print, roster, disk, talk)
    }
}

/// Prints something of the history of a roster's day, on a disk.
///
/// The first line of the source is the roster's; what comes after it is read to its end and nothing depends on it. Then the
/// day is opened on the disk, and what the command prints of its history is put into the sink. No entry is added: the disk
/// stands for the same history afterwards.
///
/// `Done`: the sink took all that is printed. `Refused`: the first line isn't a roster's, or the input passes `INPUT_LIMIT`
/// bytes, of which one more is taken; the sink took the answer that says why, and the disk is as it was. `DiskFault`: the
/// disk failed while the day was opened, and the sink took nothing. `NoHistory`: the disk's file isn't a journal of the
/// roster's day, and the sink took the answer that says why. `Err`: the source or the sink failed, whose count rose then,
/// or memory was refused; the sink took a prefix of the output.
pub fn run_history<P: Print, S: Source, K: Sink, D: Disk>(
    alloc: Global,
    print: &P,
    source: &mut S,
    sink: &mut K,
    disk: &mut D,
) -> Result<Outcome, Stop>
    ensures runs { RunsHistory S.Source K.Sink D.Disk P.prints source.old source.new sink.old sink.new disk.old disk.new result }
    ensures lasts { D.lasts disk.old disk.new }
{
    run_on_roster(alloc, &Printing { print }, source, sink, disk)
}
