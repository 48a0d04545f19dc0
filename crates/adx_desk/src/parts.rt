//! What a desk has beside its disk, made of a roster and of what the disk reads.
ghost use Rattle.std.specs.Prelude.{◌≡◌, ◌≤◌, ◌+◌, [], length, IfOk, IfErr};
ghost use Rattle.day_rules.specs.DayState.{IsDay};
ghost use Rattle.adx_desk.specs.Calls.{DeskGivesUp, DeskOpens};
ghost use Rattle.adx_desk.specs.Openings.{EndsByDisk};
ghost use Rattle.adx_desk.specs.Rosters.{desk_terms};
ghost use Rattle.day_machine.specs.declared.held.TheConstants.{NOTICE_ROOM as notice_room};

use crate::fault::DeskFault;
use crate::journaled_day::JournaledDay;
use crate::opening::open_on;
use crate::roster_day::day_of;
use adx_io::Frame;
use adx_units::OutOfMemory;
use day_journal::Disk;
use day_machine::{MeteredDay, NOTICE_ROOM};
use deal_floor::Roster;
use std::alloc::Global;

/// A desk but for its disk.
#[derive(Drop)]
pub(crate) struct Parts {
    pub(crate) kept: JournaledDay,
    pub(crate) asks: Frame,
    pub(crate) notices: Frame,
}

/// What a desk has before its disk is read: the roster's day without entries, a frame with the roster's digest, and one
/// with room for any notices of a batch.
fn made(alloc: Global, roster: &Roster) -> Result<(MeteredDay, Frame, Frame), OutOfMemory>
    ensures terms { IfOk result (λ m. m.0.terms ≡ (desk_terms roster.entry.now).day) }
    ensures legal { IfOk result (λ m. IsDay m.0.terms m.0.history) }
    ensures empty { IfOk result (λ m. m.0.history ≡ []) }
    ensures first { IfOk result (λ m. m.1.payload ≡ roster.entry.now.digest) }
    ensures room { IfOk result (λ m. notice_room ≤ m.2.spare + length m.2.payload) }
{
    let notices = Frame::new(alloc, NOTICE_ROOM)?;
    let mut asks = Frame::new(alloc, 0)?;
    asks.push(&roster.digest)?;
    let day = day_of(alloc, roster)?;
    Ok((day, asks, notices))
}

/// Opens the desk of a roster but for its disk: takes memory for the frames and for the day, and then reads the disk.
pub(crate) fn parts_of<D: Disk>(
    alloc: Global,
    disk: &mut D,
    roster: &Roster,
) -> Result<Parts, DeskFault>
    ensures opens { IfOk result (λ p. DeskOpens D.Disk (desk_terms roster.entry.now) disk.old disk.new p.kept.desk) }
    ensures room { IfOk result (λ p. notice_room ≤ p.notices.spare + length p.notices.payload) }
    ensures gives_up { IfErr result (DeskGivesUp D.Disk (desk_terms roster.entry.now) disk.old disk.new) }
    ensures ends { EndsByDisk (D.faults disk.old) (D.faults disk.new) result }
    ensures lasts { D.lasts disk.old disk.new }
{
    match made(alloc, roster) {
        Ok((day, asks, notices)) => match open_on(alloc, disk, day, &roster.digest, &asks) {
            Ok(kept) => Ok(Parts {
                kept,
                asks,
                notices,
            }),
            Err(fault) => Err(fault),
        },
        Err(_) => Err(DeskFault::OutOfMemory),
    }
}
