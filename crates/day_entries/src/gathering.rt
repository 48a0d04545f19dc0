//! Small pieces of a payload, gathered before they are added to it.
ghost use Rattle.std.specs.Prelude.{◌≡◌, ◌≤◌, ◌+◌, ◌++◌, [], length, OnOk};
ghost use Rattle.day_entries.specs.Pieces.{with_pieces};

use adx_io::Frame;
use adx_units::OutOfMemory;
use arrayvec::ArrayVec;

/// How many bytes are gathered at most.
pub(crate) const GATHERED: usize = 512;

/// How many bytes a piece has at most that is gathered: more than a digest, and than the numbers of an offer, of at most ten
/// bytes each.
pub(crate) const PIECE_ROOM: usize = 128;

/// Pieces that come after a payload and aren't added to it yet.
pub(crate) type Pieces = ArrayVec<u8, GATHERED>;

/// Adds the pieces to the payload.
pub(crate) fn add_gathered(pieces: &mut Pieces, out: &mut Frame) -> Result<(), OutOfMemory>
    ensures payload { OnOk result (out.new.payload ≡ out.old.payload ++ pieces.old.items) }
    ensures none { OnOk result (pieces.new.items ≡ []) }
    ensures marked { out.new.marked ≡ out.old.marked }
{
    out.push(pieces.as_slice())?;
    pieces.clear();
    Ok(())
}

/// Makes room for a piece after the pieces.
pub(crate) fn make_room(pieces: &mut Pieces, out: &mut Frame) -> Result<(), OutOfMemory>
    ensures same { OnOk result (with_pieces pieces.new.items out.new ≡ with_pieces pieces.old.items out.old) }
    ensures room { OnOk result (length pieces.new.items + PIECE_ROOM ≤ GATHERED) }
    ensures marked { out.new.marked ≡ out.old.marked }
{
    if pieces.len() > GATHERED - PIECE_ROOM {
        add_gathered(pieces, out)?;
    }
    Ok(())
}

/// Adds a piece after the pieces.
pub(crate) fn gather(piece: &[u8], pieces: &mut Pieces, out: &mut Frame) -> Result<(), OutOfMemory>
    ensures ok { OnOk result (with_pieces pieces.new.items out.new ≡ with_pieces pieces.old.items out.old ++ piece.now) }
    ensures marked { out.new.marked ≡ out.old.marked }
{
    if piece.len() > PIECE_ROOM {
        add_gathered(pieces, out)?;
        out.push(piece)?;
        return Ok(());
    }
    make_room(pieces, out)?;
    let added = pieces.try_extend_from_slice(piece);
    prove!(added.is_ok());
    Ok(())
}
