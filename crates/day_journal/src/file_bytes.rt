//! The bytes of a file in memory.
ghost use Rattle.day_journal.specs.Disks.{Shows, reaching, written};
ghost use Rattle.std.specs.Prelude.{◌≡◌, ◌≤◌, ◌+◌, ◌++◌, length, take, drop, OnOk, OnErr};

use adx_units::OutOfMemory;

/// Puts a piece into a file, with zeros before it where the file ends there; where memory is refused
/// nothing changes.
pub(crate) fn overwrite(bytes: &mut Vec<u8>, at: u64, piece: &[u8]) -> Result<(), OutOfMemory>
    ensures ok { OnOk result (bytes.new.items ≡ written at piece.now bytes.old.items) }
    ensures err { OnErr result (bytes.new.items ≡ bytes.old.items) }
{
    let at = usize::try_from(at).map_err(|_| OutOfMemory)?;
    let end = at.checked_add(piece.len()).ok_or(OutOfMemory)?;
    grow(bytes, end)?;
    put_within(bytes, at, piece);
    Ok(())
}

/// Makes a file at least so long, with zeros; where memory is refused nothing changes.
fn grow(bytes: &mut Vec<u8>, end: usize) -> Result<(), OutOfMemory>
    ensures ok { OnOk result (bytes.new.items ≡ reaching end bytes.old.items) }
    ensures err { OnErr result (bytes.new.items ≡ bytes.old.items) }
{
    if end > bytes.len() {
        bytes.resize(end, 0)?;
    }
    Ok(())
}

/// Puts a piece over bytes that are there.
fn put_within(bytes: &mut [u8], at: usize, piece: &[u8])
    requires { at + length piece.now ≤ length bytes.old }
    ensures len { length bytes.new ≡ length bytes.old }
    ensures bytes { bytes.new ≡ take at bytes.old ++ piece.now ++ drop (at + length piece.now) bytes.old }
{
    bytes[at..at + piece.len()].copy_from_slice(piece);
}

/// Copies the bytes from a place on to the front of `out`, and says how many.
pub(crate) fn copy_from(bytes: &[u8], at: u64, out: &mut [u8]) -> usize
    ensures count { result ≤ length out.old }
    ensures shown { Shows bytes.now at result out.new }
{
    let at = usize::try_from(at).unwrap_or(bytes.len()).min(bytes.len());
    let count = out.len().min(bytes.len() - at);
    out[..count].copy_from_slice(&bytes[at..at + count]);
    count
}
