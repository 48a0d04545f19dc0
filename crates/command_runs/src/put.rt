//! The end of an output.
ghost use Rattle.std.specs.Prelude.{◌≡◌};
ghost use Rattle.adx_io.specs.Talk.{HasCauses};
ghost use Rattle.adx_io.specs.TalkState.{place_of, state_of};
ghost use Rattle.command_runs.specs.Meanings.{MayPut, PutsEnd};

use crate::outcome::Outcome;
use adx_io::{Sink, Source, Stop, Talk};

/// Puts all that was written into the sink, and ends a run with this outcome. Nothing is asked of the source.
pub fn put_end<S: Source, K: Sink>(
    talk: &mut Talk<'_, S, K>,
    outcome: Outcome,
) -> Result<Outcome, Stop>
    ensures puts { PutsEnd outcome (state_of talk.old).held (state_of talk.new).held (state_of talk.old).out result }
    ensures may { MayPut outcome result }
    ensures rest { (talk.new.source ≡ talk.old.source) × (talk.new.buffer ≡ talk.old.buffer) }
    ensures causes { HasCauses (state_of talk.old) (state_of talk.new) result }
    ensures same { place_of talk.new ≡ place_of talk.old }
{
    match talk.put_out() {
        Ok(()) => Ok(outcome),
        Err(stop) => Err(stop),
    }
}
