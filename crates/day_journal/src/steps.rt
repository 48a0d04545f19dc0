//! The two steps of an append: a record after a closed gate, and a gate.
ghost use Rattle.std.specs.Prelude.{◌≡◌, ◌<◌, ◌+◌, ◌^◌, ◌++◌, [], ◌∷◌, List, ℕ, length, OnOk};
ghost use Rattle.day_journal.specs.Disks.{Each, LeavesOnly};
ghost use Rattle.adx_io.specs.Streams.{HasCause};
ghost use Rattle.day_journal.specs.Places.{IsClosed};
ghost use Rattle.day_journal.specs.Tails.{IsGated, HasTail, HasShutTail};

use crate::disk::Disk;
use adx_io::Failed;

/// Writes a record and a closed gate after the closed gate at `gate`, which stays closed.
pub(crate) fn stage<D: Disk>(disk: &mut D, gate: u64, record_bytes: &[u8]) -> Result<(), Failed>
    requires { gate + 1 < 2 ^ 64 }
    ensures kept { (before : List ℕ) → length before ≡ gate → Each (D.may_leave disk.old) (IsClosed before)
        → Each (D.may_leave disk.new) (IsClosed before) × LeavesOnly D.moment D.left_since disk.old disk.new (IsClosed before) }
    ensures staged { OnOk result ((before body : List ℕ) → length before ≡ gate → record_bytes.now ≡ body ++ 0 ∷ []
        → Each (D.may_leave disk.old) (IsClosed before) → Each (D.may_leave disk.new) (HasShutTail before body)) }
    ensures lasts { D.lasts disk.old disk.new }
    ensures cause { HasCause (D.faults disk.old) (D.faults disk.new) result }
{
    disk.write_at(gate + 1, record_bytes)?;
    disk.sync()?;
    Ok(())
}

/// Writes one byte over the gate at `gate`, after which a whole record is.
pub(crate) fn set_gate<D: Disk>(disk: &mut D, gate: u64, byte: u8) -> Result<(), Failed>
    ensures kept { (before body : List ℕ) → length before ≡ gate → Each (D.may_leave disk.old) (HasTail before body)
        → Each (D.may_leave disk.new) (HasTail before body) × LeavesOnly D.moment D.left_since disk.old disk.new (HasTail before body) }
    ensures set { OnOk result ((before body : List ℕ) → length before ≡ gate → Each (D.may_leave disk.old) (HasTail before body)
        → Each (D.may_leave disk.new) (IsGated byte before body)) }
    ensures lasts { D.lasts disk.old disk.new }
    ensures cause { HasCause (D.faults disk.old) (D.faults disk.new) result }
{
    disk.write_at(gate, &[byte])?;
    disk.sync()?;
    Ok(())
}
