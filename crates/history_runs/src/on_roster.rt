//! A command over the day of the roster that its input's first line is, on a disk.
ghost use Rattle.std.specs.Prelude.{◌≡◌, ◌≤◌, ℕ, [], Option, Result, length};
ghost use Rattle.adx_io.specs.Talk.{HasCauses};
ghost use Rattle.adx_io.specs.TalkState.{place_of, state_of};
ghost use Rattle.adx_io.specs.declared.line_buffer.TheConstants.{CHUNK};
ghost use Rattle.command_runs.specs.Talks.{TalkWrote};
ghost use Rattle.history_runs.specs.Runs.{RunsOn};

use crate::roster::{push_roster_lack, roster_of};
use adx_io::{Sink, Source, Stop, Talk};
use adx_units::OutOfMemory;
use command_runs::{Led, NoLine, Outcome, run_led};
use day_journal::Disk;
use deal_floor::Roster;
use std::alloc::Global;

/// A command's own part after a roster's line, on a disk.
pub trait OnRoster<D: Disk> {
    ghost use Rattle.std.specs.Prelude.{◌≡◌, ◌≤◌, ℕ, [], Result, length};
    ghost use Rattle.adx_io.specs.Talk.{HasCauses};
    ghost use Rattle.adx_io.specs.TalkState.{place_of, state_of};
    ghost use Rattle.adx_io.specs.declared.line_buffer.TheConstants.{CHUNK};
    ghost use Rattle.adx_io.specs.declared.stop.Stop.{Stop as StopValue};
    ghost use Rattle.command_runs.specs.Meanings.{Meaning};
    ghost use Rattle.command_runs.specs.Talks.{TalkWrote};
    ghost use Rattle.command_runs.specs.declared.outcome.Outcome.{Outcome as OutcomeValue};
    ghost use Rattle.deal_floor.specs.declared.roster.Roster.{Roster as RosterValue};

    /// What may come of a roster's day.
    ghost course: { Type 0 };

    /// What the command writes for the rest of its input after a roster's line, by what came of its day; so many bytes may be
    /// read.
    ghost meaning: { RosterValue → ℕ → course → Meaning };

    /// What became of the disk by what came of a roster's day, for a run of this command with this end.
    ghost leaves: { Self → RosterValue → course → D → D → Result OutcomeValue StopValue → Type 0 };

    /// Runs the command over the rest of its input.
    fn run_day<S: Source, K: Sink>(
        &self,
        alloc: Global,
        roster: &Roster,
        disk: &mut D,
        talk: &mut Talk<'_, S, K>,
    ) -> Result<Outcome, Stop>
        requires unwritten { (state_of talk.old).out ≡ [] }
        requires ahead { length talk.old.buffer.now.pending ≤ CHUNK }
        ensures ran { (c : course) × leaves self.now roster.entry.now c disk.old disk.new result
            × TalkWrote (meaning roster.entry.now (state_of talk.old).allowed c) talk.old talk.new result }
        ensures lasts { D.lasts disk.old disk.new }
        ensures causes { HasCauses (state_of talk.old) (state_of talk.new) result }
        ensures same { place_of talk.new ≡ place_of talk.old };
}

/// A command with the disk of its day.
#[derive(Drop)]
struct Opened<'a, C, D> {
    command: &'a C,
    disk: &'a mut D,
}

impl<D: Disk, C: OnRoster<D>> Led for Opened<'_, C, D> {
    ghost use Rattle.std.specs.Prelude.{◌≡◌, ◌∷◌, []};
    ghost use Rattle.history_runs.specs.Rosters.{roster_heads};

    type Head = Roster;

    ghost heads = { roster_heads };

    ghost course = { C.course };

    ghost meaning = { C.meaning };

    ghost leaves = { λ old new r c result. C.leaves old.command.now r c old.disk.now new.disk.now result × D.lasts old.disk.now new.disk.now };

    ghost place = { λ s. s.disk.ghost_name ∷ [] };

    fn head_of(
        alloc: Global,
        line: &[u8],
        out: &mut String,
    ) -> Result<Option<Roster>, OutOfMemory> {
        roster_of(alloc, line, out)
    }

    fn push_lack(alloc: Global, out: &mut String, why: NoLine) -> Result<(), OutOfMemory> {
        push_roster_lack(alloc, out, why)
    }

    fn run_rest<S: Source, K: Sink>(
        &mut self,
        alloc: Global,
        head: Roster,
        talk: &mut Talk<'_, S, K>,
    ) -> Result<Outcome, Stop> {
        self.command.run_day(alloc, &head, self.disk, talk)
    }
}

/// Reads a roster's line from a source, and runs a command over the rest of its input, on a disk.
///
/// `Ok(Outcome::Refused)` where the first line isn't a roster's: the sink then took the answer that says why, at most one piece
/// was taken from the source after the line, and the disk is as it was. Any other end is the command's. `Err`: the source or
/// the sink failed, and its count of faults rose, or memory was refused.
pub fn run_on_roster<D: Disk, C: OnRoster<D>, S: Source, K: Sink>(
    alloc: Global,
    command: &C,
    source: &mut S,
    sink: &mut K,
    disk: &mut D,
) -> Result<Outcome, Stop>
    ensures runs { RunsOn S.Source K.Sink (C.leaves command.now) C.meaning source.old source.new sink.old sink.new disk.old disk.new result }
    ensures lasts { D.lasts disk.old disk.new }
{
    let mut opened = Opened { command, disk };
    run_led(alloc, &mut opened, source, sink)
}
