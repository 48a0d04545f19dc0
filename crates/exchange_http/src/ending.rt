//! How a connection ends.
ghost use Rattle.std.specs.Prelude.{◌≡◌, Some, IfOk, OnErr};
ghost use Rattle.adx_io.specs.Streams.{HasCause};
ghost use Rattle.http_connection.specs.declared.conn.ConnEnd.{ConnEnd as End};
ghost use Rattle.http_service.specs.Replies.{fault_status};
ghost use Rattle.exchange_messages.specs.Floors.{IsFloor, IsKept};
ghost use Rattle.exchange_http.specs.Going.{EndsBehind, kept};
ghost use Rattle.exchange_http.specs.Running.{EndsAt, EndsOver, IsEndOf, IsSettled};

use crate::keeping::{Keeping, put_all_out};
use crate::outlet::Outlet;
use crate::over::Over;
use adx_desk::DayDesk;
use adx_http::{ConnEnd, HttpFault};
use adx_io::Failed;
use adx_links::Link;
use exchange_messages::{Clock, Floor, Given, Round};

/// Ends a connection whose next message is refused, by its reply.
fn refuse_by<O: Outlet>(outlet: &mut O, fault: HttpFault, status: u16) -> Result<ConnEnd, Failed>
    requires status { fault_status fault ≡ Some status }
    requires settled { IsSettled (O.held outlet.old) (O.left outlet.old) (O.least outlet.old) }
    ensures ends { EndsAt (O.held outlet.old) (O.sunk outlet.new) fault result }
    ensures cause { HasCause (O.faults outlet.old) (O.faults outlet.new) result }
    ensures place { O.place outlet.new ≡ O.place outlet.old }
{
    match outlet.refuse(status) {
        Ok(()) => match outlet.put_out() {
            Ok(()) => Ok(ConnEnd::Refused { fault }),
            Err(failed) => Err(failed),
        },
        Err(_) => Err(Failed),
    }
}

/// Ends a connection by a fault of its next message.
fn end_by<O: Outlet>(outlet: &mut O, fault: HttpFault) -> Result<ConnEnd, Failed>
    requires settled { IsSettled (O.held outlet.old) (O.left outlet.old) (O.least outlet.old) }
    ensures ends { EndsAt (O.held outlet.old) (O.sunk outlet.new) fault result }
    ensures cause { HasCause (O.faults outlet.old) (O.faults outlet.new) result }
    ensures place { O.place outlet.new ≡ O.place outlet.old }
{
    match fault {
        HttpFault::BadHead => refuse_by(outlet, HttpFault::BadHead, 400),
        HttpFault::BadChunk => refuse_by(outlet, HttpFault::BadChunk, 400),
        HttpFault::HeadTooLong => refuse_by(outlet, HttpFault::HeadTooLong, 431),
        HttpFault::LengthRequired => refuse_by(outlet, HttpFault::LengthRequired, 411),
        HttpFault::BodyTooLong => refuse_by(outlet, HttpFault::BodyTooLong, 413),
        HttpFault::Coding => refuse_by(outlet, HttpFault::Coding, 415),
        HttpFault::Cut => Ok(ConnEnd::Cut),
        HttpFault::ReadFault => Ok(ConnEnd::ReadFault),
    }
}

/// Ends a connection whose messages are over, with all replies put.
fn end_so<O: Outlet>(outlet: &mut O, over: Over) -> Result<ConnEnd, Failed>
    requires settled { IsSettled (O.held outlet.old) (O.left outlet.old) (O.least outlet.old) }
    ensures ends { EndsOver (O.held outlet.old) (O.sunk outlet.new) over result }
    ensures cause { HasCause (O.faults outlet.old) (O.faults outlet.new) result }
    ensures place { O.place outlet.new ≡ O.place outlet.old }
{
    match over {
        Over::Closed => Ok(ConnEnd::Closed),
        Over::Spent => Ok(ConnEnd::Spent),
        Over::Fault(fault) => end_by(outlet, fault),
    }
}

/// Ends a connection whose messages are over: takes the notices that wait, puts all replies, and after them the reply to
/// a message that is refused.
pub(crate) fn finish<
    Y: DayDesk,
    L: Link + Drop,
    C: Clock,
    F: Fn(Round<'_, L>) -> Given<L>,
    O: Outlet,
>(
    floor: &mut Floor<'_, Y, L, C, F>,
    keeping: &mut Keeping<O>,
    over: Over,
) -> Result<ConnEnd, Failed>
    requires floor { IsFloor Y.DayDesk floor.old }
    ensures ends { IfOk result (EndsBehind Y.DayDesk L.Link C.Clock O.Outlet over
        floor.old (kept keeping.old) floor.new keeping.new.outlet) }
    ensures fails { OnErr result (EndsBehind Y.DayDesk L.Link C.Clock O.Outlet over
        floor.old (kept keeping.old) floor.new keeping.new.outlet End.WriteFault) }
    ensures floor { IsFloor Y.DayDesk floor.new }
    ensures kept { IsKept Y.DayDesk floor.old floor.new }
    ensures cause { HasCause (O.faults keeping.old.outlet) (O.faults keeping.new.outlet) result }
    ensures by { IfOk result (λ end. IsEndOf over end) }
    ensures place { O.place keeping.new.outlet ≡ O.place keeping.old.outlet }
{
    match put_all_out(floor, keeping) {
        Ok(()) => end_so(&mut keeping.outlet, over),
        Err(failed) => Err(failed),
    }
}
