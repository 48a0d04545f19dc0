//! Notices of a connection.
ghost use Rattle.std.specs.Prelude.{◌≡◌, [], OnOk, OnErr};
ghost use Rattle.adx_io.specs.Streams.{HasCause};
ghost use Rattle.http_connection.specs.declared.conn.ConnEnd.{ConnEnd as End};
ghost use Rattle.exchange_messages.specs.Floors.{IsFloor, IsKept};
ghost use Rattle.exchange_http.specs.Going.{GoesOn, IsNotice, Stops, StopsIn, TakesOne, kept, none_waits};

use crate::keeping::Keeping;
use crate::outlet::Outlet;
use crate::waiting::write_outcome;
use adx_desk::{DayDesk, take_one};
use adx_io::Failed;
use adx_links::Link;
use exchange_messages::{Clock, Floor, Given, Round};
use notice_book::NoticeKind;

/// Takes a notice that can't wait.
fn take_alone<Y: DayDesk, L: Link + Drop, C: Clock, F: Fn(Round<'_, L>) -> Given<L>, O: Outlet>(
    floor: &mut Floor<'_, Y, L, C, F>,
    outlet: &mut O,
    kind: NoticeKind,
    auction: &str,
    award: u32,
    close: bool,
) -> Result<(), Failed>
    requires floor { IsFloor Y.DayDesk floor.old }
    ensures goes_on { OnOk result (TakesOne Y.DayDesk L.Link C.Clock O.Outlet (IsNotice kind auction.now award close)
        floor.old (none_waits outlet.old) floor.new (none_waits outlet.new)) }
    ensures fails { OnErr result (StopsIn Y.DayDesk L.Link C.Clock O.Outlet (IsNotice kind auction.now award close)
        floor.old (none_waits outlet.old) floor.new outlet.new End.WriteFault) }
    ensures floor { IsFloor Y.DayDesk floor.new }
    ensures kept { IsKept Y.DayDesk floor.old floor.new }
    ensures lanes { floor.new.lanes ≡ floor.old.lanes }
    ensures cause { HasCause (O.faults outlet.old) (O.faults outlet.new) result }
    ensures place { O.place outlet.new ≡ O.place outlet.old }
{
    match outlet.expect(1) {
        Ok(()) => {
            let outcome = take_one(&mut floor.desk, kind, auction, award);
            match write_outcome(outlet, &outcome, close) {
                Ok(()) => Ok(()),
                Err(_) => Err(Failed),
            }
        }
        Err(failed) => Err(failed),
    }
}

/// Lets a notice that the others let wait be taken with them where the connection closes.
fn close_behind<Y: DayDesk, L: Link + Drop, C: Clock, F: Fn(Round<'_, L>) -> Given<L>, O: Outlet>(
    floor: &mut Floor<'_, Y, L, C, F>,
    keeping: &mut Keeping<O>,
    close: bool,
) -> Result<(), Failed>
    requires floor { IsFloor Y.DayDesk floor.old }
    ensures goes_on { OnOk result (GoesOn Y.DayDesk L.Link C.Clock O.Outlet
        floor.old close (kept keeping.old) floor.new (kept keeping.new)) }
    ensures fails { OnErr result (Stops Y.DayDesk L.Link C.Clock O.Outlet
        floor.old close (kept keeping.old) floor.new keeping.new.outlet End.WriteFault) }
    ensures floor { IsFloor Y.DayDesk floor.new }
    ensures kept { IsKept Y.DayDesk floor.old floor.new }
    ensures lanes { floor.new.lanes ≡ floor.old.lanes }
    ensures cause { HasCause (O.faults keeping.old.outlet) (O.faults keeping.new.outlet) result }
    ensures place { O.place keeping.new.outlet ≡ O.place keeping.old.outlet }
{
    if close {
        keeping
            .waiting
            .flush(&mut floor.desk, &mut keeping.outlet, true)
    } else {
        Ok(())
    }
}

/// Takes a notice after none that waits.
fn begin_notice<Y: DayDesk, L: Link + Drop, C: Clock, F: Fn(Round<'_, L>) -> Given<L>, O: Outlet>(
    floor: &mut Floor<'_, Y, L, C, F>,
    keeping: &mut Keeping<O>,
    kind: NoticeKind,
    auction: &str,
    award: u32,
    close: bool,
) -> Result<(), Failed>
    requires floor { IsFloor Y.DayDesk floor.old }
    requires none { keeping.old.waiting.batch.calls ≡ [] }
    ensures goes_on { OnOk result (TakesOne Y.DayDesk L.Link C.Clock O.Outlet (IsNotice kind auction.now award close)
        floor.old (kept keeping.old) floor.new (kept keeping.new)) }
    ensures fails { OnErr result (StopsIn Y.DayDesk L.Link C.Clock O.Outlet (IsNotice kind auction.now award close)
        floor.old (kept keeping.old) floor.new keeping.new.outlet End.WriteFault) }
    ensures floor { IsFloor Y.DayDesk floor.new }
    ensures kept { IsKept Y.DayDesk floor.old floor.new }
    ensures lanes { floor.new.lanes ≡ floor.old.lanes }
    ensures cause { HasCause (O.faults keeping.old.outlet) (O.faults keeping.new.outlet) result }
    ensures place { O.place keeping.new.outlet ≡ O.place keeping.old.outlet }
{
    if keeping.waiting.add(kind, auction, award) {
        close_behind(floor, keeping, close)
    } else {
        take_alone(floor, &mut keeping.outlet, kind, auction, award, close)
    }
}

/// Lets a notice wait; those that wait are taken first where it can't wait after them, and with it where the connection
/// closes.
pub(crate) fn take_notice<
    Y: DayDesk,
    L: Link + Drop,
    C: Clock,
    F: Fn(Round<'_, L>) -> Given<L>,
    O: Outlet,
>(
    floor: &mut Floor<'_, Y, L, C, F>,
    keeping: &mut Keeping<O>,
    kind: NoticeKind,
    auction: &str,
    award: u32,
    close: bool,
) -> Result<(), Failed>
    requires floor { IsFloor Y.DayDesk floor.old }
    ensures goes_on { OnOk result (TakesOne Y.DayDesk L.Link C.Clock O.Outlet (IsNotice kind auction.now award close)
        floor.old (kept keeping.old) floor.new (kept keeping.new)) }
    ensures fails { OnErr result (StopsIn Y.DayDesk L.Link C.Clock O.Outlet (IsNotice kind auction.now award close)
        floor.old (kept keeping.old) floor.new keeping.new.outlet End.WriteFault) }
    ensures floor { IsFloor Y.DayDesk floor.new }
    ensures kept { IsKept Y.DayDesk floor.old floor.new }
    ensures lanes { floor.new.lanes ≡ floor.old.lanes }
    ensures cause { HasCause (O.faults keeping.old.outlet) (O.faults keeping.new.outlet) result }
    ensures place { O.place keeping.new.outlet ≡ O.place keeping.old.outlet }
{
    if keeping.waiting.add(kind, auction, award) {
        return close_behind(floor, keeping, close);
    }
    match keeping
        .waiting
        .flush(&mut floor.desk, &mut keeping.outlet, false)
    {
        Ok(()) => begin_notice(floor, keeping, kind, auction, award, close),
        Err(failed) => Err(failed),
    }
}
