//! What a document is put from, piece by piece.
ghost use Rattle.std.specs.Prelude.{◌≡◌, ◌<◌, ◌++◌, List, ℕ, length, slice_index_or, [], OnOk, string_bytes};
ghost use Rattle.std.specs.List.{flat_map};
ghost use Rattle.adx_io.specs.Talk.{HasCauses};
ghost use Rattle.adx_io.specs.TalkState.{place_of, state_of};
ghost use Rattle.formats.specs.Parts.{ended};
ghost use Rattle.history_runs.specs.Putting.{PutsPiece};

use adx_io::{Sink, Source, Stop, Talk};
use adx_units::OutOfMemory;

/// So many bytes are gathered before they are put.
const PIECE: usize = 65_536;

/// Lines that are written one after another.
pub(crate) trait Lines {
    ghost use Rattle.std.specs.Prelude.{List, ℕ};

    /// The lines, without their newlines.
    ghost lines: { Self → List (List ℕ) };

    /// How many they are.
    fn count(&self) -> usize
        ensures { result ≡ length (lines self.now) };

    /// Writes the line of this index, and its newline.
    fn push_line(&self, at: usize, out: &mut String) -> Result<(), OutOfMemory>
        requires { at < length (lines self.now) }
        ensures { OnOk result (string_bytes out.new ≡ string_bytes out.old ++ ended (slice_index_or (lines self.now) at [])) };
}

/// Puts what was written once it is a piece.
fn put_piece<S: Source, K: Sink>(talk: &mut Talk<'_, S, K>) -> Result<(), Stop>
    ensures puts { PutsPiece (state_of talk.old).held (state_of talk.new).held (state_of talk.old).out (state_of talk.new).out result }
    ensures rest { talk.new.source ≡ talk.old.source }
    ensures causes { HasCauses (state_of talk.old) (state_of talk.new) result }
    ensures same { place_of talk.new ≡ place_of talk.old }
{
    if talk.out.len() < PIECE {
        return Ok(());
    }
    talk.put_out()
}

/// Writes a line, and puts what was written once it is a piece.
fn put_line<L: Lines, S: Source, K: Sink>(
    lines: &L,
    at: usize,
    talk: &mut Talk<'_, S, K>,
) -> Result<(), Stop>
    requires { at < length (L.lines lines.now) }
    ensures puts { PutsPiece (state_of talk.old).held (state_of talk.new).held
        ((state_of talk.old).out ++ ended (slice_index_or (L.lines lines.now) at [])) (state_of talk.new).out result }
    ensures rest { talk.new.source ≡ talk.old.source }
    ensures causes { HasCauses (state_of talk.old) (state_of talk.new) result }
    ensures same { place_of talk.new ≡ place_of talk.old }
{
    match lines.push_line(at, talk.out) {
        Ok(()) => put_piece(talk),
        Err(_) => Err(Stop::OutOfMemory),
    }
}

/// Puts lines into the sink after what was written, in pieces; of the last piece a part may still be to be put.
pub(crate) fn put_lines<L: Lines, S: Source, K: Sink>(
    lines: &L,
    talk: &mut Talk<'_, S, K>,
) -> Result<(), Stop>
    ensures puts { PutsPiece (state_of talk.old).held (state_of talk.new).held
        ((state_of talk.old).out ++ flat_map ended (L.lines lines.now)) (state_of talk.new).out result }
    ensures rest { talk.new.source ≡ talk.old.source }
    ensures causes { HasCauses (state_of talk.old) (state_of talk.new) result }
    ensures same { place_of talk.new ≡ place_of talk.old }
{
    let count = lines.count();
    for at in 0..count {
        match put_line(lines, at, talk) {
            Ok(()) => {}
            Err(stop) => return Err(stop),
        }
    }
    Ok(())
}
