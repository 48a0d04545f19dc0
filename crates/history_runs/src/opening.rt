//! A day that couldn't be opened: how its run ends, and the line that says why.
ghost use Rattle.std.specs.Prelude.{◌≡◌, []};
ghost use Rattle.adx_io.specs.Talk.{HasCauses};
ghost use Rattle.adx_io.specs.TalkState.{place_of, state_of};
ghost use Rattle.history_runs.specs.Unopened.{PutsUnopened, unopened_end};

use crate::unopened_lines::push_unopened;
use adx_desk::DeskFault;
use adx_io::{Sink, Source, Stop, Talk};
use command_runs::{Outcome, put_end};

/// How a run ends whose day couldn't be opened for this cause.
pub fn unopened_outcome(fault: &DeskFault) -> Result<Outcome, Stop>
    ensures { result ≡ unopened_end fault.now }
{
    match fault {
        DeskFault::DiskFault => Ok(Outcome::DiskFault),
        DeskFault::OutOfMemory => Err(Stop::OutOfMemory),
        DeskFault::NotAJournal { .. }
        | DeskFault::BadLength { .. }
        | DeskFault::BadEntry { .. }
        | DeskFault::OtherRoster { .. }
        | DeskFault::JournalFull { .. } => Ok(Outcome::NoHistory),
    }
}

/// Ends the run of a day that couldn't be opened: where the disk's file was refused, with the line that says why. A fault
/// of the disk has no line, and nothing is put then. Nothing is asked of the source.
pub fn tell_unopened<S: Source, K: Sink>(
    talk: &mut Talk<'_, S, K>,
    fault: &DeskFault,
) -> Result<Outcome, Stop>
    requires unwritten { (state_of talk.old).out ≡ [] }
    ensures puts { PutsUnopened fault.now (state_of talk.old).held (state_of talk.new).held result }
    ensures rest { (talk.new.source ≡ talk.old.source) × (talk.new.buffer ≡ talk.old.buffer) }
    ensures causes { HasCauses (state_of talk.old) (state_of talk.new) result }
    ensures same { place_of talk.new ≡ place_of talk.old }
{
    match unopened_outcome(fault) {
        Ok(Outcome::NoHistory) => match push_unopened(talk.out, fault) {
            Ok(()) => put_end(talk, Outcome::NoHistory),
            Err(_) => Err(Stop::OutOfMemory),
        },
        other => other,
    }
}
