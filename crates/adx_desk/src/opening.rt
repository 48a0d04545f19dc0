//! How the day of a roster is opened on a disk.
ghost use Rattle.std.specs.Prelude.{◌≡◌, ◌⊎◌, ◌+◌, ◌<◌, ◌≤◌, ℕ, List, [], ◌∷◌, length, true, Some, IfOk, IfErr, OnOk};
ghost use Rattle.day_journal.specs.Disks.{LeavesOnly};
ghost use Rattle.day_journal.specs.Places.{StandsFor, opened};
ghost use Rattle.day_journal.specs.Tails.{Keeps, size_of};
ghost use Rattle.day_rules.specs.DayState.{IsDay};
ghost use Rattle.day_rules.specs.declared.entry.Entry.{Entry};
ghost use Rattle.adx_desk.specs.Calls.{DeskGivesUp, DeskOpens, LeavesSame, OfFile, OfWholeFile, terms_of};
ghost use Rattle.adx_desk.specs.Desks.{DeskKeeps};
ghost use Rattle.adx_desk.specs.Histories.{IsHistoryOf, longest_size};
ghost use Rattle.adx_desk.specs.Loading.{HasOpened};
ghost use Rattle.adx_desk.specs.Openings.{EndsByDisk, IsRefusal, RefusesDesk};

use crate::fault::DeskFault;
use crate::journaled_day::JournaledDay;
use crate::loading::load;
use adx_io::Frame;
use day_journal::{Disk, Journal, Opening};
use day_machine::MeteredDay;
use std::alloc::Global;

/// Makes the frame's payload the first one of a journal that has none.
fn begin<D: Disk>(disk: &mut D, opening: Opening, first: &Frame) -> Result<Journal, DeskFault>
    requires closed { opening.closed ≡ true }
    requires some { 0 < length first.now.payload }
    requires start { opening.window.at ≡ length (opened opening.format []) }
    ensures kept { IfOk result (λ journal. OfWholeFile D.Disk disk.old opening
        (λ file. (tail : List ℕ) → Keeps (D.may_leave disk.new) journal (first.now.payload ∷ []) tail)) }
    ensures any_moment { OfWholeFile D.Disk disk.old opening
        (λ file. LeavesOnly D.moment D.left_since disk.old disk.new (λ c. StandsFor opening.format c [] ⊎ StandsFor opening.format c (first.now.payload ∷ []))) }
    ensures size { IfOk result (λ journal. size_of journal ≡ length (opened opening.format (first.now.payload ∷ [])) + 1) }
    ensures format { IfOk result (λ journal. journal.format ≡ opening.format) }
    ensures refused { IfErr result (λ e. OfFile D.Disk disk.old opening (λ file. length first.now.payload ≤ 32 → IsRefusal e → ⊥)) }
    ensures ends { EndsByDisk (D.faults disk.old) (D.faults disk.new) result }
    ensures lasts { D.lasts disk.old disk.new }
{
    let mut journal = opening.done(disk);
    match journal.append(disk, first, 0) {
        Ok(()) => Ok(journal),
        Err(fault) => Err(DeskFault::from(fault)),
    }
}

/// Reads the day's entries after the digest, or begins a journal that has no payload with it.
fn journal_of<D: Disk>(
    alloc: Global,
    disk: &mut D,
    opening: Opening,
    day: &mut MeteredDay,
    digest: &[u8; 32],
    first: &Frame,
) -> Result<Journal, DeskFault>
    requires legal { IsDay day.old.terms day.old.history }
    requires empty { day.old.history ≡ [] }
    requires first { first.now.payload ≡ digest.now }
    requires start { opening.window.at ≡ length (opened opening.format []) }
    ensures terms { day.new.terms ≡ day.old.terms }
    ensures legal { OnOk result (IsDay day.new.terms day.new.history) }
    ensures opened { IfOk result (λ journal. OfWholeFile D.Disk disk.old opening
        (λ file. HasOpened digest.now file (D.reads disk.new) (D.may_leave disk.new) journal day.new.history)) }
    ensures any_moment { OfWholeFile D.Disk disk.old opening
        (λ file. LeavesSame D.Disk (terms_of day.old.terms digest.now) disk.old disk.new file) }
    ensures size { IfOk result (λ journal. size_of journal ≤ longest_size (terms_of day.new.terms digest.now) day.new.history) }
    ensures refused { IfErr result (λ e. OfFile D.Disk disk.old opening
        (λ file. RefusesDesk (terms_of day.old.terms digest.now) file e)) }
    ensures untouched { IfErr result (λ e. OfFile D.Disk disk.old opening (λ file. IsRefusal e → D.reads disk.new ≡ Some file)) }
    ensures ends { EndsByDisk (D.faults disk.old) (D.faults disk.new) result }
    ensures lasts { D.lasts disk.old disk.new }
{
    let mut opening = opening;
    match load(alloc, disk, &mut opening, day, digest) {
        Ok(true) => Ok(opening.done(disk)),
        Ok(false) => match begin(disk, opening, first) {
            Ok(journal) => Ok(journal),
            Err(fault) => Err(fault),
        },
        Err(fault) => Err(fault),
    }
}

/// The day of the history that the journal has, or of none.
fn day_behind<D: Disk>(
    alloc: Global,
    disk: &mut D,
    opening: Opening,
    day: MeteredDay,
    digest: &[u8; 32],
    first: &Frame,
) -> Result<JournaledDay, DeskFault>
    requires legal { IsDay day.terms day.history }
    requires empty { day.history ≡ [] }
    requires first { first.now.payload ≡ digest.now }
    requires start { opening.window.at ≡ length (opened opening.format []) }
    ensures terms { IfOk result (λ d. d.desk.terms ≡ terms_of day.terms digest.now) }
    ensures faults { IfOk result (λ d. d.desk.faults ≡ 0) }
    ensures history { IfOk result (λ d. OfWholeFile D.Disk disk.old opening
        (λ file. IsHistoryOf (terms_of day.terms digest.now) file d.desk.history)) }
    ensures keeps { IfOk result (λ d. OfWholeFile D.Disk disk.old opening
        (λ file. (tail : List Entry) → DeskKeeps (D.may_leave disk.new) d.desk tail)) }
    ensures any_moment { OfWholeFile D.Disk disk.old opening
        (λ file. LeavesSame D.Disk (terms_of day.terms digest.now) disk.old disk.new file) }
    ensures refused { IfErr result (λ e. OfWholeFile D.Disk disk.old opening
        (λ file. RefusesDesk (terms_of day.terms digest.now) file e)) }
    ensures untouched { IfErr result (λ e. OfWholeFile D.Disk disk.old opening (λ file. IsRefusal e → D.reads disk.new ≡ Some file)) }
    ensures ends { EndsByDisk (D.faults disk.old) (D.faults disk.new) result }
    ensures lasts { D.lasts disk.old disk.new }
{
    let mut day = day;
    match journal_of(alloc, disk, opening, &mut day, digest, first) {
        Ok(journal) => match JournaledDay::of(day, *digest, journal) {
            Ok(kept) => Ok(kept),
            Err(fault) => Err(fault),
        },
        Err(fault) => Err(fault),
    }
}

/// Opens the day of a roster with this digest, which the frame has: by the journal of a disk, or by one that it
/// begins.
pub(crate) fn open_on<D: Disk>(
    alloc: Global,
    disk: &mut D,
    day: MeteredDay,
    digest: &[u8; 32],
    first: &Frame,
) -> Result<JournaledDay, DeskFault>
    requires legal { IsDay day.terms day.history }
    requires empty { day.history ≡ [] }
    requires first { first.now.payload ≡ digest.now }
    ensures opens { IfOk result (λ d. DeskOpens D.Disk (terms_of day.terms digest.now) disk.old disk.new d.desk) }
    ensures gives_up { IfErr result (DeskGivesUp D.Disk (terms_of day.terms digest.now) disk.old disk.new) }
    ensures ends { EndsByDisk (D.faults disk.old) (D.faults disk.new) result }
    ensures lasts { D.lasts disk.old disk.new }
{
    match Journal::open(alloc, disk) {
        Ok(opening) => match day_behind(alloc, disk, opening, day, digest, first) {
            Ok(kept) => Ok(kept),
            Err(fault) => Err(fault),
        },
        Err(fault) => Err(DeskFault::from(fault)),
    }
}
