//! The line of a day's revenue guarantee.
ghost use Rattle.std.specs.Prelude.{◌≡◌, [], IfOk};
ghost use Rattle.adx_desk.specs.Rosters.{desk_terms};
ghost use Rattle.adx_io.specs.Talk.{HasCauses};
ghost use Rattle.adx_io.specs.TalkState.{place_of, state_of};
ghost use Rattle.day_rules.specs.DayState.{IsDay};
ghost use Rattle.history_runs.specs.Histories.{Printed};
ghost use Rattle.history_runs.specs.Runs.{RunsHistory};
ghost use Rattle.ratio_law.specs.Line.{ratio_line};
ghost use Rattle.command_close.specs.Guarantees.{HasNumbers, HasOneGuarantee, IsGuarantee};
ghost use Rattle.history_runs.specs.Putting.{PutsBytes};

use adx_io::{Sink, Source, Stop, Talk};
use adx_units::OutOfMemory;
use command_runs::Outcome;
use day_journal::Disk;
use day_rules::Entry;
use deal_floor::Roster;
use history_runs::{Print, run_history};
use ratio_law::{Ratio, push_ratio, ratio};
use served_record::record_of;
use std::alloc::Global;

/// The numbers of the guarantee of a history.
fn numbers_of(alloc: Global, roster: &Roster, entries: &[Entry]) -> Result<Ratio, OutOfMemory>
    requires { IsDay (desk_terms roster.now).day entries.now }
    ensures { IfOk result (λ x. HasNumbers roster.entry.now entries.now x) }
{
    let day = record_of(alloc, roster, entries)?;
    ratio(alloc, &day)
}

/// Puts the line of these numbers.
fn put_line<S: Source, K: Sink>(numbers: &Ratio, talk: &mut Talk<'_, S, K>) -> Result<(), Stop>
    requires unwritten { (state_of talk.old).out ≡ [] }
    ensures puts { PutsBytes (K.held talk.old.sink.now) (K.held talk.new.sink.now) (ratio_line numbers.now) result }
    ensures rest { talk.new.source ≡ talk.old.source }
    ensures causes { HasCauses (state_of talk.old) (state_of talk.new) result }
    ensures same { place_of talk.new ≡ place_of talk.old }
{
    match push_ratio(talk.out, numbers) {
        Ok(()) => talk.put_out(),
        Err(_) => Err(Stop::OutOfMemory),
    }
}

/// Puts the line of the guarantee of a history.
fn put_guarantee<S: Source, K: Sink>(
    alloc: Global,
    roster: &Roster,
    entries: &[Entry],
    talk: &mut Talk<'_, S, K>,
) -> Result<(), Stop>
    requires unwritten { (state_of talk.old).out ≡ [] }
    requires day { IsDay (desk_terms roster.now).day entries.now }
    ensures printed { Printed IsGuarantee roster.entry.now entries.now (K.held talk.old.sink.now) (K.held talk.new.sink.now) result }
    ensures rest { talk.new.source ≡ talk.old.source }
    ensures causes { HasCauses (state_of talk.old) (state_of talk.new) result }
    ensures same { place_of talk.new ≡ place_of talk.old }
{
    match numbers_of(alloc, roster, entries) {
        Ok(numbers) => put_line(&numbers, talk),
        Err(_) => Err(Stop::OutOfMemory),
    }
}

/// What is printed of a history that is measured.
#[derive(Drop)]
struct Guarantees;

impl Print for Guarantees {
    ghost use Rattle.std.specs.Prelude.{◌≡◌};
    ghost use Rattle.command_close.specs.Guarantees.{IsGuarantee};

    ghost prints = { IsGuarantee };

    fn print<S: Source, K: Sink>(
        &self,
        alloc: Global,
        roster: &Roster,
        entries: &[Entry],
        talk: &mut Talk<'_, S, K>,
    ) -> Result<(), Stop> {
        put_guarantee(alloc, roster, entries, talk)
    }
}

/// Prints one line with the numbers of the revenue guarantee of the day that a journal keeps: whether the day is small, its
/// committed money, its greatest charges, its impressions, the bound of its certificate, and the two sides of the
/// guarantee. On a small day the left side is at most the right one.
///
/// It reads its input, opens the day, leaves the disk and ends as `close_journal` does, and the line is printed in place of
/// the document.
pub fn measure_journal<S: Source, K: Sink, D: Disk>(
    alloc: Global,
    source: &mut S,
    sink: &mut K,
    disk: &mut D,
) -> Result<Outcome, Stop>
    ensures runs { RunsHistory S.Source K.Sink D.Disk IsGuarantee source.old source.new sink.old sink.new disk.old disk.new result }
    ensures lasts { D.lasts disk.old disk.new }
    // Each history has one such line.
    ensures one_line { HasOneGuarantee }
{
    run_history(alloc, &Guarantees, source, sink, disk)
}
