//! A generated day on a disk, and its closing table.
ghost use Rattle.std.specs.Prelude.{◌≡◌, ◌≢◌, ◌≤◌, length, Err, Ok};
ghost use Rattle.adx_desk.specs.Rosters.{desk_terms};
ghost use Rattle.adx_io.specs.Streams.{Rises};
ghost use Rattle.adx_io.specs.declared.stop.Stop.TheVariants.{WriteFault};
ghost use Rattle.command_gen.specs.Disks.{DeskRunsCalls};
ghost use Rattle.command_gen.specs.Generated.{generated_line};
ghost use Rattle.command_gen.specs.GeneratedEnds.{EndsUntaken, GeneratedRuns};
ghost use Rattle.command_gen.specs.Taking.{PutsOutput, PutsTable};
ghost use Rattle.command_gen.specs.declared.generator.TheConstants.{MOST_ASKS as most_asks};
ghost use Rattle.command_runs.specs.declared.outcome.Outcome.TheVariants.{DiskFault as FaultOfDisk};
ghost use Rattle.script_lines.specs.Rosters.{IsRosterLine};

use crate::calls::take_day;
use crate::early::EarlyEnd;
use crate::generator::Generator;
use crate::roster::generated_roster;
use adx_desk::{Desk, DeskFault, push_books};
use adx_io::{Sink, Stop, put_all};
use command_runs::Outcome;
use day_journal::Disk;
use deal_floor::Roster;
use history_runs::{push_unopened, unopened_outcome};
use std::alloc::Global;

/// Puts the output into the sink.
fn put_output<K: Sink>(sink: &mut K, out: &str) -> Result<(), Stop>
    ensures puts { PutsOutput (K.held sink.old) (K.held sink.new) out.now result }
    ensures write_fault { result ≡ Err WriteFault → Rises (K.faults sink.old) (K.faults sink.new) }
    ensures write_passed { result ≢ Err WriteFault → K.faults sink.new ≡ K.faults sink.old }
    ensures write_later { K.faults sink.old ≤ K.faults sink.new }
    ensures same { K.place sink.new ≡ K.place sink.old }
{
    match put_all(sink, out.as_bytes()) {
        Ok(()) => Ok(()),
        Err(_) => Err(Stop::WriteFault),
    }
}

/// Writes the closing table of a day whose calls were all taken, and puts it into the sink.
fn tell_table<K: Sink, D: Disk>(
    alloc: Global,
    roster: &Roster,
    desk: &Desk<D>,
    sink: &mut K,
) -> Result<Outcome, Stop>
    requires terms { desk.now.desk.terms ≡ desk_terms roster.now }
    ensures tells { PutsTable roster.entry.now desk.now.desk.history (K.held sink.old) (K.held sink.new) result }
    ensures write_fault { result ≡ Err WriteFault → Rises (K.faults sink.old) (K.faults sink.new) }
    ensures write_passed { result ≢ Err WriteFault → K.faults sink.new ≡ K.faults sink.old }
    ensures write_later { K.faults sink.old ≤ K.faults sink.new }
    ensures same { K.place sink.new ≡ K.place sink.old }
{
    let mut out = String::new(alloc);
    match push_books(&mut out, desk, roster) {
        Ok(()) => match put_output(sink, out.as_str()) {
            Ok(()) => Ok(Outcome::Done),
            Err(stop) => Err(stop),
        },
        Err(_) => Err(Stop::OutOfMemory),
    }
}

/// Takes all calls of a generated day, and puts its closing table into the sink.
fn run_calls<K: Sink, D: Disk>(
    alloc: Global,
    roster: &Roster,
    desk: &mut Desk<D>,
    generator: Generator,
    sink: &mut K,
) -> Result<Outcome, Stop>
    requires few { generator.asks ≤ most_asks }
    requires terms { desk.old.desk.terms ≡ desk_terms roster.now }
    requires campaigns { length desk.old.desk.terms.day.budgets ≡ 16 }
    ensures runs { DeskRunsCalls D.Disk desk.old desk.new roster.entry.now generator.seed generator.asks (K.held sink.old) (K.held sink.new) result }
    ensures lasts { D.lasts desk.old.disk desk.new.disk }
    ensures write_fault { result ≡ Err WriteFault → Rises (K.faults sink.old) (K.faults sink.new) }
    ensures write_passed { result ≢ Err WriteFault → K.faults sink.new ≡ K.faults sink.old }
    ensures write_later { K.faults sink.old ≤ K.faults sink.new }
    ensures same { K.place sink.new ≡ K.place sink.old }
{
    match take_day(alloc, desk, generator) {
        Ok(()) => tell_table(alloc, roster, desk, sink),
        Err(EarlyEnd::DiskFault) => Ok(Outcome::DiskFault),
        Err(EarlyEnd::OutOfMemory) => Err(Stop::OutOfMemory),
    }
}

/// Ends a day that wasn't opened: after a refusal of the file with a line that says why.
fn give_up<K: Sink>(alloc: Global, fault: &DeskFault, sink: &mut K) -> Result<Outcome, Stop>
    ensures ends { EndsUntaken fault.now (K.held sink.old) (K.held sink.new) result }
    ensures write_fault { result ≡ Err WriteFault → Rises (K.faults sink.old) (K.faults sink.new) }
    ensures write_passed { result ≢ Err WriteFault → K.faults sink.new ≡ K.faults sink.old }
    ensures write_later { K.faults sink.old ≤ K.faults sink.new }
    ensures same { K.place sink.new ≡ K.place sink.old }
{
    match unopened_outcome(fault) {
        Ok(Outcome::NoHistory) => {
            let mut out = String::new(alloc);
            match push_unopened(&mut out, fault) {
                Ok(()) => match put_output(sink, out.as_str()) {
                    Ok(()) => Ok(Outcome::NoHistory),
                    Err(stop) => Err(stop),
                },
                Err(_) => Err(Stop::OutOfMemory),
            }
        }
        other => other,
    }
}

/// Serves a generated day of a roster: opens it on its disk, takes its calls, and puts its closing table.
fn serve_roster<K: Sink, D: Disk>(
    alloc: Global,
    roster: &Roster,
    generator: Generator,
    sink: &mut K,
    disk: &mut D,
) -> Result<Outcome, Stop>
    requires few { generator.asks ≤ most_asks }
    requires line { IsRosterLine generated_line roster.now }
    ensures runs { GeneratedRuns D.Disk generator.seed generator.asks (K.held sink.old) (K.held sink.new) disk.old disk.new result }
    ensures lasts { D.lasts disk.old disk.new }
    ensures write_fault { result ≡ Err WriteFault → Rises (K.faults sink.old) (K.faults sink.new) }
    ensures write_passed { result ≢ Err WriteFault → K.faults sink.new ≡ K.faults sink.old }
    ensures write_later { K.faults sink.old ≤ K.faults sink.new }
    ensures same { K.place sink.new ≡ K.place sink.old }
{
    match Desk::open(alloc, &mut *disk, roster) {
        Ok(desk) => {
            let mut desk = desk;
            let ended = run_calls(alloc, roster, &mut desk, generator, sink);
            let _ = desk.leave();
            ended
        }
        Err(refused) => {
            let (fault, _) = refused;
            give_up(alloc, &fault, sink)
        }
    }
}

/// Runs a generated day on a disk, and puts its closing table into the sink.
///
/// The day is that of a roster line of 16 campaigns, opened by the history that the disk's file represents. It takes so many
/// asks by the words of SplitMix64 from the seed (Steele, Lea, Flood, OOPSLA 2014), eight offers for each, after each
/// award a bill, a loss, a bill twice or nothing, and after each hundredth ask a tick. An ask for which the journal has
/// no room is given up, and the day goes on.
///
/// `Done`: all calls were taken, and the sink took the closing table. `DiskFault`: the disk failed while the day was opened or
/// in a call, which was the last, and the sink took nothing. `NoHistory`: the disk's file isn't a journal of the roster's day,
/// and the sink took a line that says why. `Err`: the sink failed, whose count rose then, and took a prefix of the output; or
/// memory was refused, and it took nothing. Nothing is read.
pub fn run_generated<K: Sink, D: Disk>(
    alloc: Global,
    generator: Generator,
    sink: &mut K,
    disk: &mut D,
) -> Result<Outcome, Stop>
    requires few { generator.asks ≤ most_asks }
    ensures runs { GeneratedRuns D.Disk generator.seed generator.asks (K.held sink.old) (K.held sink.new) disk.old disk.new result }
    ensures lasts { D.lasts disk.old disk.new }
    ensures disk_fault { result ≡ Ok FaultOfDisk → Rises (D.faults disk.old) (D.faults disk.new) }
    ensures disk_passed { result ≢ Ok FaultOfDisk → D.faults disk.new ≡ D.faults disk.old }
    ensures write_fault { result ≡ Err WriteFault → Rises (K.faults sink.old) (K.faults sink.new) }
    ensures write_passed { result ≢ Err WriteFault → K.faults sink.new ≡ K.faults sink.old }
    ensures write_later { K.faults sink.old ≤ K.faults sink.new }
    ensures same { K.place sink.new ≡ K.place sink.old }
{
    match generated_roster(alloc) {
        Ok(roster) => serve_roster(alloc, &roster, generator, sink, disk),
        Err(_) => Err(Stop::OutOfMemory),
    }
}
