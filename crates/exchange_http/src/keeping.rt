//! What is kept from one message to the next.
ghost use Rattle.std.specs.Prelude.{◌≡◌, [], false, OnOk, OnErr};
ghost use Rattle.adx_io.specs.Streams.{HasCause};
ghost use Rattle.http_connection.specs.declared.conn.ConnEnd.{ConnEnd as End};
ghost use Rattle.exchange_messages.specs.Floors.{IsFloor, IsKept};
ghost use Rattle.exchange_http.specs.Going.{GoesOn, Stops, kept, none_waits};
ghost use Rattle.exchange_http.specs.Running.{IsSettled};

use crate::outlet::Outlet;
use crate::waiting::Waiting;
use adx_desk::DayDesk;
use adx_io::Failed;
use adx_links::Link;
use exchange_messages::{Clock, Floor, Given, Round};

/// What is kept from one message to the next: the notices that wait, where replies go out, and room for a body.
#[derive(Drop)]
pub(crate) struct Keeping<O> {
    pub(crate) waiting: Waiting,
    pub(crate) outlet: O,
    pub(crate) body: String,
}

/// Takes the notices that wait, and puts all replies that are gathered.
pub(crate) fn put_all_out<
    Y: DayDesk,
    L: Link + Drop,
    C: Clock,
    F: Fn(Round<'_, L>) -> Given<L>,
    O: Outlet,
>(floor: &mut Floor<'_, Y, L, C, F>, keeping: &mut Keeping<O>) -> Result<(), Failed>
    requires floor { IsFloor Y.DayDesk floor.old }
    ensures goes_on { OnOk result (GoesOn Y.DayDesk L.Link C.Clock O.Outlet
        floor.old false (kept keeping.old) floor.new (none_waits keeping.new.outlet)) }
    ensures empty { OnOk result (keeping.new.waiting.batch.calls ≡ []) }
    ensures settled { OnOk result (IsSettled (O.held keeping.new.outlet) (O.left keeping.new.outlet) (O.least keeping.new.outlet)) }
    ensures fails { OnErr result (Stops Y.DayDesk L.Link C.Clock O.Outlet
        floor.old false (kept keeping.old) floor.new keeping.new.outlet End.WriteFault) }
    ensures floor { IsFloor Y.DayDesk floor.new }
    ensures kept { IsKept Y.DayDesk floor.old floor.new }
    ensures lanes { floor.new.lanes ≡ floor.old.lanes }
    ensures cause { HasCause (O.faults keeping.old.outlet) (O.faults keeping.new.outlet) result }
    ensures place { O.place keeping.new.outlet ≡ O.place keeping.old.outlet }
{
    match keeping
        .waiting
        .flush(&mut floor.desk, &mut keeping.outlet, false)
    {
        Ok(()) => keeping.outlet.put_out(),
        Err(failed) => Err(failed),
    }
}
