//! How a new journal is made of a file that has none.
ghost use Rattle.std.specs.Prelude.{◌≡◌, ◌⊎◌, ◌≤◌, ◌++◌, [], ◌∷◌, List, ℕ, length, is_some, OnOk};
ghost use Rattle.day_journal.specs.Disks.{AsRead, Each, LeavesOnly};
ghost use Rattle.adx_io.specs.Streams.{HasCause};
ghost use Rattle.day_journal.specs.Places.{IsCleared, IsMarked, IsMarkedAs, IsUnfinished, new_file};
ghost use Rattle.day_journal.specs.Starts.{HasSome, StandsNew};
ghost use Rattle.day_journal.specs.declared.start.TheConstants.{NEW_FORMAT};

use crate::disk::Disk;
use adx_io::Failed;

/// The mark after byte 0 and a closed gate.
const MARK: [u8; 9] = *b"ADXJRNL2\0";

/// Makes a new journal of a file of at most a byte, or marked, whose first byte isn't 0.
pub(crate) fn make_uncleared<D: Disk>(disk: &mut D) -> Result<(), Failed>
    ensures kept { Each (D.may_leave disk.old) (λ c. (length c ≤ 1) ⊎ IsMarked c)
        → LeavesOnly D.moment D.left_since disk.old disk.new (λ c. StandsNew c × HasSome (D.may_leave disk.old)) }
    ensures made { OnOk result (Each (D.may_leave disk.old) (λ c. (length c ≤ 1) ⊎ IsMarked c)
        → Each (D.may_leave disk.new) (λ c. c ≡ new_file)) }
    ensures durable { OnOk result (AsRead (D.reads disk.new) (D.may_leave disk.new)) }
    ensures told { is_some (D.reads disk.new) ≡ is_some (D.reads disk.old) }
    ensures lasts { D.lasts disk.old disk.new }
    ensures cause { HasCause (D.faults disk.old) (D.faults disk.new) result }
{
    clear_first(disk)?;
    make_cleared(disk)?;
    Ok(())
}

/// Makes a new journal of a file of at most ten bytes whose first is 0.
pub(crate) fn make_cleared<D: Disk>(disk: &mut D) -> Result<(), Failed>
    ensures kept { Each (D.may_leave disk.old) IsCleared
        → LeavesOnly D.moment D.left_since disk.old disk.new (λ c. StandsNew c × HasSome (D.may_leave disk.old)) }
    ensures made { OnOk result (Each (D.may_leave disk.old) IsCleared → Each (D.may_leave disk.new) (λ c. c ≡ new_file)) }
    ensures durable { OnOk result (AsRead (D.reads disk.new) (D.may_leave disk.new)) }
    ensures told { is_some (D.reads disk.new) ≡ is_some (D.reads disk.old) }
    ensures lasts { D.lasts disk.old disk.new }
    ensures cause { HasCause (D.faults disk.old) (D.faults disk.new) result }
{
    put_mark(disk)?;
    put_head(disk)?;
    Ok(())
}

/// Makes byte 0 of a file unset that is short, or marked after it.
fn clear_first<D: Disk>(disk: &mut D) -> Result<(), Failed>
    ensures kept { Each (D.may_leave disk.old) (λ c. (length c ≤ 1) ⊎ IsMarked c)
        → Each (D.may_leave disk.new) (λ c. IsUnfinished c × HasSome (D.may_leave disk.old))
        × LeavesOnly D.moment D.left_since disk.old disk.new (λ c. IsUnfinished c × HasSome (D.may_leave disk.old)) }
    ensures cleared { OnOk result (Each (D.may_leave disk.old) (λ c. (length c ≤ 1) ⊎ IsMarked c) → Each (D.may_leave disk.new) IsCleared) }
    ensures told { is_some (D.reads disk.new) ≡ is_some (D.reads disk.old) }
    ensures lasts { D.lasts disk.old disk.new }
    ensures cause { HasCause (D.faults disk.old) (D.faults disk.new) result }
{
    disk.write_at(0, &[0])?;
    disk.sync()?;
    Ok(())
}

/// Writes the mark and a closed gate after byte 0, which is unset.
fn put_mark<D: Disk>(disk: &mut D) -> Result<(), Failed>
    ensures kept { Each (D.may_leave disk.old) IsCleared
        → Each (D.may_leave disk.new) (λ c. IsCleared c × HasSome (D.may_leave disk.old))
        × LeavesOnly D.moment D.left_since disk.old disk.new (λ c. IsCleared c × HasSome (D.may_leave disk.old)) }
    ensures marked { OnOk result (Each (D.may_leave disk.old) IsCleared → Each (D.may_leave disk.new) (IsMarkedAs NEW_FORMAT)) }
    ensures told { is_some (D.reads disk.new) ≡ is_some (D.reads disk.old) }
    ensures lasts { D.lasts disk.old disk.new }
    ensures cause { HasCause (D.faults disk.old) (D.faults disk.new) result }
{
    disk.write_at(1, &MARK)?;
    disk.sync()?;
    Ok(())
}

/// Sets byte 0, after which all is there.
fn put_head<D: Disk>(disk: &mut D) -> Result<(), Failed>
    ensures kept { Each (D.may_leave disk.old) (IsMarkedAs NEW_FORMAT)
        → Each (D.may_leave disk.new) (λ c. IsMarkedAs NEW_FORMAT c × HasSome (D.may_leave disk.old))
        × LeavesOnly D.moment D.left_since disk.old disk.new (λ c. IsMarkedAs NEW_FORMAT c × HasSome (D.may_leave disk.old)) }
    ensures made { OnOk result (Each (D.may_leave disk.old) (IsMarkedAs NEW_FORMAT) → Each (D.may_leave disk.new) (λ c. c ≡ new_file)) }
    ensures durable { OnOk result (AsRead (D.reads disk.new) (D.may_leave disk.new)) }
    ensures told { is_some (D.reads disk.new) ≡ is_some (D.reads disk.old) }
    ensures lasts { D.lasts disk.old disk.new }
    ensures cause { HasCause (D.faults disk.old) (D.faults disk.new) result }
{
    disk.write_at(0, &[1])?;
    disk.sync()?;
    Ok(())
}
