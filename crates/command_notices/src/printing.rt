//! The notices of a history, printed.
ghost use Rattle.std.specs.Prelude.{◌≡◌, [], IfOk};
ghost use Rattle.adx_desk.specs.Rosters.{desk_terms};
ghost use Rattle.adx_io.specs.Talk.{HasCauses};
ghost use Rattle.adx_io.specs.TalkState.{place_of, state_of};
ghost use Rattle.day_rules.specs.DayState.{IsDay};
ghost use Rattle.day_rules.specs.Terms.{Terms};
ghost use Rattle.history_runs.specs.Histories.{Printed};
ghost use Rattle.history_runs.specs.Runs.{RunsHistory};
ghost use Rattle.outbox.specs.Posts.{posts_of};
ghost use Rattle.command_notices.specs.PostLines.{AreNotices};

use crate::lines::put_posts;
use adx_io::{Sink, Source, Stop, Talk};
use adx_units::OutOfMemory;
use command_runs::Outcome;
use day_journal::Disk;
use day_rules::Entry;
use deal_floor::Roster;
use history_runs::{Print, run_history};
use outbox::Outbox;
use std::alloc::Global;

/// An outbox whose pending posts are those of a history.
fn outbox_of(alloc: Global, entries: &[Entry]) -> Result<Outbox, OutOfMemory>
    requires { (terms : Terms) × IsDay terms entries.now }
    ensures { IfOk result (λ outbox. outbox.pending ≡ posts_of entries.now) }
{
    let mut outbox = Outbox::new(alloc)?;
    outbox.follow(entries)?;
    Ok(outbox)
}

/// Puts the lines of the notices of a history.
fn put_notices<S: Source, K: Sink>(
    alloc: Global,
    roster: &Roster,
    entries: &[Entry],
    talk: &mut Talk<'_, S, K>,
) -> Result<(), Stop>
    requires unwritten { (state_of talk.old).out ≡ [] }
    requires day { IsDay (desk_terms roster.now).day entries.now }
    ensures printed { Printed AreNotices roster.entry.now entries.now (K.held talk.old.sink.now) (K.held talk.new.sink.now) result }
    ensures rest { talk.new.source ≡ talk.old.source }
    ensures causes { HasCauses (state_of talk.old) (state_of talk.new) result }
    ensures same { place_of talk.new ≡ place_of talk.old }
{
    let _ = roster;
    match outbox_of(alloc, entries) {
        Ok(outbox) => put_posts(outbox.pending(), talk),
        Err(_) => Err(Stop::OutOfMemory),
    }
}

/// What is printed of a history whose notices are asked for.
#[derive(Drop)]
struct Notices;

impl Print for Notices {
    ghost use Rattle.std.specs.Prelude.{◌≡◌};
    ghost use Rattle.command_notices.specs.PostLines.{AreNotices};

    ghost prints = { AreNotices };

    fn print<S: Source, K: Sink>(
        &self,
        alloc: Global,
        roster: &Roster,
        entries: &[Entry],
        talk: &mut Talk<'_, S, K>,
    ) -> Result<(), Stop> {
        put_notices(alloc, roster, entries, talk)
    }
}

/// Prints the notices that a journal's day owes its bidders, a line for each: the kind of the post, a space and its URL, in
/// the order of the history's entries.
///
/// The first line of the source is the roster's; what comes after it is read to its end and nothing depends on it. Then the
/// roster's day is opened on the disk, and the lines are put into the sink. No entry is added: the disk represents the same
/// history afterwards.
///
/// `Done`: the sink took all these lines. `Refused`: the first line isn't a roster's, or the input passes `INPUT_LIMIT`
/// bytes, of which one more is taken; the sink took the answer that says why, and the disk is as it was. `DiskFault`: the
/// disk failed while the day was opened, and the sink took nothing. `NoHistory`: the disk's file isn't a journal of the
/// roster's day, and the sink took the answer that says why. `Err`: the source or the sink failed, whose count rose then,
/// or memory was refused; the sink took a prefix of the output.
pub fn print_notices<S: Source, K: Sink, D: Disk>(
    alloc: Global,
    source: &mut S,
    sink: &mut K,
    disk: &mut D,
) -> Result<Outcome, Stop>
    ensures runs { RunsHistory S.Source K.Sink D.Disk AreNotices source.old source.new sink.old sink.new disk.old disk.new result }
    ensures lasts { D.lasts disk.old disk.new }
{
    run_history(alloc, &Notices, source, sink, disk)
}
