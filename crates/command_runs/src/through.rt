//! The rest of an input, which is read to its end and ignored.
ghost use Rattle.std.specs.Prelude.{◌≡◌, ◌≢◌, ◌≤◌, [], length, Err, OnOk};
ghost use Rattle.adx_io.specs.Streams.{WhereTold};
ghost use Rattle.adx_io.specs.Talk.{HasCauses};
ghost use Rattle.adx_io.specs.TalkState.{place_of, state_of};
ghost use Rattle.adx_io.specs.declared.line_buffer.TheConstants.{CHUNK};
ghost use Rattle.adx_io.specs.declared.stop.Stop.TheVariants.{OutOfMemory};
ghost use Rattle.command_runs.specs.Skipped.{SkipsRest};

use adx_io::{Next, Rest, Sink, Source, Stop, Talk};

/// Reads the rest of an input and ignores it: all of it, or one byte more than its limit. None of it is kept in memory.
pub fn skip_rest<S: Source, K: Sink>(talk: &mut Talk<'_, S, K>) -> Result<Rest, Stop>
    requires unwritten { (state_of talk.old).out ≡ [] }
    requires ahead { length talk.old.buffer.now.pending ≤ CHUNK }
    ensures reads { WhereTold (state_of talk.old).tape (S.tape talk.new.source.now) (SkipsRest (state_of talk.old).allowed result) }
    ensures held { (state_of talk.new).held ≡ (state_of talk.old).held }
    ensures unwritten { OnOk result ((state_of talk.new).out ≡ []) }
    ensures causes { HasCauses (state_of talk.old) (state_of talk.new) result }
    ensures same { place_of talk.new ≡ place_of talk.old }
{
    'lines: loop {
        match talk.next_line(0) {
            Ok(Next::Line) => {}
            Ok(Next::End) => return Ok(Rest::Whole),
            Ok(Next::PastLimit) => return Ok(Rest::PastLimit),
            Err(stop) => return Err(stop),
        }
    }
}
