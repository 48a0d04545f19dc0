//! The entries of a record, read and added to a day.
ghost use Rattle.std.specs.Prelude.{◌≡◌, ◌++◌, ◌<◌, ◌^◌, [], ◌∷◌, length, IfOk, IfErr, OnOk};
ghost use Rattle.day_rules.specs.Legal.{IsLegal, MayFollow};
ghost use Rattle.adx_desk.specs.Loading.{RefusesEntry, RefusesNext, RefusesRecord, TakesEntry, TakesFront};

use crate::fault::DeskFault;
use day_entries::decode;
use day_machine::MeteredDay;
use day_rules::Entry;
use std::alloc::Global;

/// That no entry that may be there is at the next place of the history.
fn bad_entry(day: &MeteredDay) -> DeskFault
    ensures { result ≡ DeskFault.BadEntry (length day.now.history) }
{
    DeskFault::BadEntry {
        at: day.day().entries().len() as u64,
    }
}

/// Adds an entry that was read, where it may follow the day's history.
fn add(day: &mut MeteredDay, entry: Entry) -> Result<(), DeskFault>
    ensures terms { day.new.terms ≡ day.old.terms }
    ensures follows { OnOk result (MayFollow day.old.terms day.old.history entry) }
    ensures added { OnOk result (day.new.history ≡ day.old.history ++ entry ∷ []) }
    ensures refused { IfErr result (RefusesNext day.old.terms day.old.history entry) }
{
    if !day.day().legal(&entry) {
        return Err(bad_entry(day));
    }
    match day.prepare(&entry) {
        Ok(()) => {
            day.commit(entry);
            Ok(())
        }
        Err(_) => Err(DeskFault::OutOfMemory),
    }
}

/// Adds the entry at the front of the bytes, and gives the bytes after it.
fn take_entry<'b>(
    alloc: Global,
    day: &mut MeteredDay,
    format: u8,
    bytes: &'b [u8],
) -> Result<&'b [u8], DeskFault>
    ensures terms { day.new.terms ≡ day.old.terms }
    ensures taken { IfOk result (λ rest. TakesEntry format day.old.terms day.old.history day.new.history bytes.now rest.now) }
    ensures refused { IfErr result (RefusesEntry format day.old.terms day.old.history bytes.now) }
{
    match decode(alloc, bytes, format) {
        Ok(Some((entry, count))) => match add(day, entry) {
            Ok(()) => {
                let (_, rest) = bytes.split_at(count);
                Ok(rest)
            }
            Err(fault) => Err(fault),
        },
        Ok(None) => Err(bad_entry(day)),
        Err(_) => Err(DeskFault::OutOfMemory),
    }
}

/// Adds the entries of a record's payload, each of which may follow those before it.
pub(crate) fn take_record(
    alloc: Global,
    day: &mut MeteredDay,
    format: u8,
    payload: &[u8],
) -> Result<(), DeskFault>
    requires { IsLegal day.old.terms day.old.history }
    ensures terms { day.new.terms ≡ day.old.terms }
    ensures taken { OnOk result (TakesFront format day.old.terms day.old.history day.new.history payload.now []) }
    ensures refused { IfErr result (RefusesRecord format day.old.terms day.old.history payload.now) }
{
    let mut rest = payload;
    'entries: loop {
        match take_entry(alloc, day, format, rest) {
            Ok(behind) => {
                if behind.is_empty() {
                    return Ok(());
                }
                rest = behind;
            }
            Err(fault) => return Err(fault),
        }
    }
}
