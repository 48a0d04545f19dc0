//! Connections by two passes of one shared desk, beside the same ones on a desk of their own.
ghost use Rattle.std.specs.Prelude.{◌≡◌};
ghost use Rattle.adx_desk.specs.Rosters.{desk_terms};
ghost use Rattle.adx_desk.specs.Shared.{terms_in};
ghost use Rattle.exchange_messages.specs.Floors.{AreLanes};
ghost use Rattle.turnstile.specs.Passes.{IsOf};

use crate::days::{desk_of, roster_of};
use crate::links::{Starts, lanes_of};
use crate::serving::{Course, DeskPass, Lanes, Shared, is_same};
use adx_desk::Desk;
use adx_units::OutOfMemory;
use day_journal::MemoryDisk;
use deal_floor::Roster;
use shared_desk::SharedDesk;
use std::alloc::Global;
use std::marker::Sync;
use std::sync::Wait;
use std::thread::Threads;

/// Whether each of these connections ends in the same way by its pass, the second one where it is long after, as on one desk
/// that has them all in this order.
fn are_same<R: Wait + Threads + Sync>(
    rt: &R,
    alloc: Global,
    roster: &Roster,
    desk: &Shared,
    ours: &mut DeskPass,
    theirs: &mut DeskPass,
    other: &mut Desk<MemoryDisk>,
    lanes: &mut Lanes<'_>,
    courses: &[Course<'_>],
) -> Result<bool, OutOfMemory>
    requires ours { IsOf ours.old desk.now }
    requires theirs { IsOf theirs.old desk.now }
    requires opened { terms_in desk.now.fixed ≡ desk_terms roster.now }
    requires terms { other.old.desk.terms ≡ desk_terms roster.now }
    requires lanes { AreLanes roster.now lanes.old.items }
{
    for course in courses {
        let is = if course.is_late {
            is_same(rt, alloc, roster, desk, theirs, other, lanes, *course)?
        } else {
            is_same(rt, alloc, roster, desk, ours, other, lanes, *course)?
        };
        if !is {
            return Ok(false);
        }
    }
    Ok(true)
}

/// The same, where the first desk is shared then.
fn are_same_shared<R: Wait + Threads + Sync>(
    rt: &R,
    alloc: Global,
    roster: &Roster,
    desk: Desk<MemoryDisk>,
    other: &mut Desk<MemoryDisk>,
    courses: &[Course<'_>],
) -> Result<bool, OutOfMemory>
    requires opened { desk.desk.terms ≡ desk_terms roster.now }
    requires terms { other.old.desk.terms ≡ desk_terms roster.now }
{
    let (shared, mut ours) = SharedDesk::new(alloc, desk)?;
    let mut theirs = shared.split(&mut ours)?;
    let starts = Starts::new(0);
    let mut lanes = lanes_of(alloc, roster, &starts)?;
    are_same(
        rt,
        alloc,
        roster,
        &shared,
        &mut ours,
        &mut theirs,
        other,
        &mut lanes,
        courses,
    )
}

/// The same on two new desks of the roster, of whose disks these calls fail.
fn are_same_on<R: Wait + Threads + Sync>(
    rt: &R,
    alloc: Global,
    roster: &Roster,
    fails: &[u64],
    courses: &[Course<'_>],
) -> Result<bool, OutOfMemory> {
    let mut other = desk_of(alloc, roster, fails)?;
    let desk = desk_of(alloc, roster, fails)?;
    are_same_shared(rt, alloc, roster, desk, &mut other, courses)
}

/// The same on the day's roster.
pub(crate) fn are_alike<R: Wait + Threads + Sync>(
    rt: &R,
    alloc: Global,
    fails: &[u64],
    courses: &[Course<'_>],
) -> Result<bool, OutOfMemory> {
    let roster = roster_of(alloc)?;
    are_same_on(rt, alloc, &roster, fails, courses)
}
