//! What a journal says of a day: the roster's digest, and after it the records.
ghost use Rattle.std.specs.Prelude.{◌≡◌, ◌≢◌, ◌==◌, ◌+◌, ◌≤◌, ℕ, List, [], ◌∷◌, length, true, Some, IfOk, IfErr, OnOk, MatchBool, if◌then◌else◌};
ghost use Rattle.std.specs.List.{sum_by};
ghost use Rattle.day_journal.specs.Openings.{OnlyReads, StandsBehind};
ghost use Rattle.day_journal.specs.Places.{IsClosed, opened};
ghost use Rattle.day_rules.specs.DayState.{IsDay};
ghost use Rattle.day_machine.specs.Held.{longest_record};
ghost use Rattle.adx_desk.specs.Calls.{terms_of};
ghost use Rattle.adx_desk.specs.Histories.{longest_size};
ghost use Rattle.adx_desk.specs.Loading.{HasRead, HasReadAll};
ghost use Rattle.adx_desk.specs.Openings.{EndsByDisk, RefusesDesk, told_of};
ghost use Rattle.adx_desk.specs.declared.fault.DeskFault.{DeskFault as Fault};

use crate::fault::DeskFault;
use crate::record_reading::take_record;
use day_journal::{Disk, Opening};
use day_machine::MeteredDay;
use sha2::{Digest, Sha256};
use std::alloc::Global;

/// What is said of a first payload that isn't the roster's digest.
fn told(payload: &[u8]) -> [u8; 32]
    ensures { result ≡ told_of payload.now }
{
    match <[u8; 32]>::try_from(payload) {
        Ok(digest) => digest,
        Err(_) => Sha256::digest(payload),
    }
}

/// Compares a first payload with the roster's digest.
fn compare(payload: &[u8], digest: &[u8; 32]) -> Result<(), DeskFault>
    ensures same { OnOk result (payload.now ≡ digest.now) }
    ensures other { IfErr result (λ e. (payload.now ≢ digest.now) × (e ≡ Fault.OtherRoster (told_of payload.now))) }
{
    if payload != digest.as_slice() {
        return Err(DeskFault::OtherRoster {
            kept: told(payload),
        });
    }
    Ok(())
}

/// Reads the records after the digest, to the end of the journal.
fn read_records<D: Disk>(
    alloc: Global,
    disk: &mut D,
    opening: &mut Opening,
    day: &mut MeteredDay,
    payload: &mut Vec<u8>,
) -> Result<(), DeskFault>
    requires { IsDay day.old.terms day.old.history }
    ensures terms { day.new.terms ≡ day.old.terms }
    ensures legal { OnOk result (IsDay day.new.terms day.new.history) }

    // Whatever the disk reads: the reader moved by no more bytes than a record for each entry that it added takes.
    ensures moved { OnOk result (opening.new.window.at + sum_by longest_record day.old.history
        ≤ opening.old.window.at + sum_by longest_record day.new.history) }

    ensures read { OnOk result ((digest file : List ℕ) → D.reads disk.old ≡ Some file → HasRead digest file opening.old day.old.history
        → HasReadAll digest file opening.new day.new.history) }
    ensures closed { OnOk result (opening.new.closed ≡ true) }
    ensures refused { IfErr result (λ e. (digest file : List ℕ) → D.reads disk.old ≡ Some file → HasRead digest file opening.old day.old.history
        → RefusesDesk (terms_of day.old.terms digest) file e) }
    ensures format { opening.new.format ≡ opening.old.format }
    ensures only_reads { OnlyReads D.reads D.may_leave D.moment D.left_since disk.old disk.new }
    ensures ends { EndsByDisk (D.faults disk.old) (D.faults disk.new) result }
    ensures lasts { D.lasts disk.old disk.new }
{
    'records: loop {
        match opening.next_into(disk, payload) {
            Ok(true) => match take_record(alloc, day, opening.format(), payload.as_slice()) {
                Ok(()) => {}
                Err(fault) => return Err(fault),
            },
            Ok(false) => return Ok(()),
            Err(fault) => return Err(DeskFault::from(fault)),
        }
    }
}

/// Reads the journal to its end, the digest and what comes after it: true; false where it has no payload.
pub(crate) fn load<D: Disk>(
    alloc: Global,
    disk: &mut D,
    opening: &mut Opening,
    day: &mut MeteredDay,
    digest: &[u8; 32],
) -> Result<bool, DeskFault>
    requires legal { IsDay day.old.terms day.old.history }
    requires empty { day.old.history ≡ [] }
    requires start { opening.old.window.at ≡ length (opened opening.old.format []) }
    ensures terms { day.new.terms ≡ day.old.terms }
    ensures legal { OnOk result (IsDay day.new.terms day.new.history) }
    ensures read { IfOk result (λ found. (file : List ℕ) → D.reads disk.old ≡ Some file → StandsBehind file opening.old []
        → MatchBool found (HasReadAll digest.now file opening.new day.new.history)
        (StandsBehind file opening.new [] × IsClosed (opened opening.old.format []) file)) }
    ensures size { IfOk result (λ found. MatchBool found
        (opening.new.window.at + 1 ≤ longest_size (record { day = day.new.terms; digest = digest.now }) day.new.history)
        ((opening.new.window.at ≡ length (opened opening.old.format [])) × (day.new.history ≡ []))) }
    ensures closed { OnOk result (opening.new.closed ≡ true) }
    ensures refused { IfErr result (λ e. (file : List ℕ) → D.reads disk.old ≡ Some file → StandsBehind file opening.old []
        → RefusesDesk (record { day = day.old.terms; digest = digest.now }) file e) }
    ensures format { opening.new.format ≡ opening.old.format }
    ensures only_reads { OnlyReads D.reads D.may_leave D.moment D.left_since disk.old disk.new }
    ensures ends { EndsByDisk (D.faults disk.old) (D.faults disk.new) result }
    ensures lasts { D.lasts disk.old disk.new }
{
    let mut payload = Vec::new(alloc);
    match opening.next_into(disk, &mut payload) {
        Ok(true) => match compare(payload.as_slice(), digest) {
            Ok(()) => match read_records(alloc, disk, opening, day, &mut payload) {
                Ok(()) => Ok(true),
                Err(fault) => Err(fault),
            },
            Err(fault) => Err(fault),
        },
        Ok(false) => Ok(false),
        Err(fault) => Err(DeskFault::from(fault)),
    }
}
