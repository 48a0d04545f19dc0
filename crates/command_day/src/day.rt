//! A day of script lines, from its roster line to its closing table.
ghost use Rattle.std.specs.Prelude.{◌≡◌, ◌≤◌, [], length};
ghost use Rattle.adx_io.specs.Talk.{HasCauses};
ghost use Rattle.adx_io.specs.TalkState.{place_of, state_of};
ghost use Rattle.adx_io.specs.declared.line_buffer.TheConstants.{CHUNK};
ghost use Rattle.command_day.specs.Runs.{DayRuns};
ghost use Rattle.command_day.specs.Steps.{Day, LeavesDay, day_after};
ghost use Rattle.command_runs.specs.Talks.{TalkWrote};

use crate::lines::run_lines;
use adx_desk::Desk;
use adx_io::{Sink, Source, Stop, Talk};
use command_runs::Outcome;
use day_journal::Disk;
use deal_floor::Roster;
use history_runs::{OnRoster, run_on_roster, tell_unopened};
use std::alloc::Global;

/// Serves the day of a roster: opens it on its disk, answers the lines of the script, and closes it.
fn serve_roster<S: Source, K: Sink, D: Disk>(
    alloc: Global,
    roster: &Roster,
    disk: &mut D,
    talk: &mut Talk<'_, S, K>,
) -> Result<Outcome, Stop>
    requires unwritten { (state_of talk.old).out ≡ [] }
    requires ahead { length talk.old.buffer.now.pending ≤ CHUNK }
    ensures ran { (day : Day) × LeavesDay D.Disk roster.entry.now day disk.old disk.new result
        × TalkWrote (day_after roster.entry.now (state_of talk.old).allowed day) talk.old talk.new result }
    ensures lasts { D.lasts disk.old disk.new }
    ensures causes { HasCauses (state_of talk.old) (state_of talk.new) result }
    ensures same { place_of talk.new ≡ place_of talk.old }
{
    match Desk::open(alloc, &mut *disk, roster) {
        Ok(desk) => {
            let mut desk = desk;
            let ended = run_lines(alloc, roster, &mut desk, talk);
            let _ = desk.leave();
            ended
        }
        Err(refused) => {
            let (fault, _) = refused;
            tell_unopened(talk, &fault)
        }
    }
}

/// The command that serves a day.
#[derive(Drop)]
struct Serving;

impl<D: Disk> OnRoster<D> for Serving {
    ghost use Rattle.command_day.specs.Steps.{Day, LeavesDay, day_after};

    ghost course = { Day };

    ghost meaning = { day_after };

    ghost leaves = { λ _ r day old new result. LeavesDay D.Disk r day old new result };

    fn run_day<S: Source, K: Sink>(
        &self,
        alloc: Global,
        roster: &Roster,
        disk: &mut D,
        talk: &mut Talk<'_, S, K>,
    ) -> Result<Outcome, Stop> {
        serve_roster(alloc, roster, disk, talk)
    }
}

/// Serves a day of script lines from its roster line to its closing table, on a disk.
///
/// The roster line is the first of the source. Its day is opened by the history that the disk's file represents. Then each
/// line of the script is answered with a line, and after the last the closing table is written. A call's entry is in the
/// journal before its answer is written, and the answer is put into the sink before the next line is read. A call that the
/// disk's fault gives up, or that the journal has no room for, is answered so, and the day goes on.
///
/// `Done`: the source was read to its end, and the disk's fault gave up no call. `Refused`: the first line isn't a roster's,
/// or the input passes `INPUT_LIMIT` bytes, of which one more is taken. `DiskFault`: the disk failed while the day was
/// opened, and then the sink took nothing, or the source was read to its end and the disk's fault gave up some call.
/// `NoHistory`: the disk's file isn't a journal of the roster's day, and the sink took a line that says why. `Err`: the
/// source or the sink failed, whose count rose then, or memory was refused; then the sink took a prefix of the output, and
/// the answers to all lines that were taken up but at most one.
pub fn run_day<S: Source, K: Sink, D: Disk>(
    alloc: Global,
    source: &mut S,
    sink: &mut K,
    disk: &mut D,
) -> Result<Outcome, Stop>
    ensures runs { DayRuns S.Source K.Sink D.Disk source.old source.new sink.old sink.new disk.old disk.new result }
    ensures lasts { D.lasts disk.old disk.new }
{
    run_on_roster(alloc, &Serving, source, sink, disk)
}
