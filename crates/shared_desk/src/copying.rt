//! Copies of entries.
ghost use Rattle.std.specs.Prelude.{◌≡◌, IfOk};

use adx_units::OutOfMemory;
use day_entries::copy_of;
use day_rules::Entry;
use std::alloc::Global;

/// A copy of an entry.
fn copy_of_entry(alloc: Global, entry: &Entry) -> Result<Entry, OutOfMemory>
    ensures { IfOk result (λ copy. copy ≡ entry.entry.now) }
{
    match entry {
        Entry::Ask(ask) => {
            let copy = copy_of(alloc, ask)?;
            Ok(Entry::Ask(copy))
        }
        Entry::Win { award } => Ok(Entry::Win { award: *award }),
        Entry::Bill { award } => Ok(Entry::Bill { award: *award }),
        Entry::Loss { award } => Ok(Entry::Loss { award: *award }),
        Entry::Expire { now } => Ok(Entry::Expire { now: *now }),
        Entry::Budget {
            campaign,
            change,
            budget,
        } => Ok(Entry::Budget {
            campaign: *campaign,
            change: *change,
            budget: *budget,
        }),
    }
}

/// Copies of entries.
pub(crate) fn copies_of(alloc: Global, entries: &[Entry]) -> Result<Vec<Entry>, OutOfMemory>
    ensures { IfOk result (λ copies. copies.items ≡ entries.entry.now) }
{
    let mut copies = Vec::with_capacity(alloc, entries.len())?;
    for entry in entries {
        copies.push(copy_of_entry(alloc, entry)?)?;
    }
    Ok(copies)
}
