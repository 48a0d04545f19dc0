//! Messages of a connection that are no notices.
ghost use Rattle.std.specs.Prelude.{◌≡◌, OnOk, OnErr, IfErr};
ghost use Rattle.adx_http.specs.Written.{WritesBy};
ghost use Rattle.adx_io.specs.Streams.{Took};
ghost use Rattle.http_connection.specs.Answers.{Shows};
ghost use Rattle.http_connection.specs.Messages.{Request};
ghost use Rattle.http_service.specs.Connections.{TookFront};
ghost use Rattle.http_service.specs.Replies.{reply_to};
ghost use Rattle.exchange_messages.specs.Floors.{Gave, IsFloor, IsKept};
ghost use Rattle.exchange_http.specs.Going.{ShowsOther, StopsIn, TakesOne, kept, none_waits};
ghost use Rattle.exchange_http.specs.Running.{IsSettled, StopCauses, end_of};

use crate::keeping::{Keeping, put_all_out};
use crate::outlet::Outlet;
use crate::stop::Stop;
use adx_desk::DayDesk;
use adx_http::{Message, WriteFault};
use adx_links::Link;
use exchange_messages::{Clock, Floor, Given, Other, Round};
use http_service::{Answer, asks_no_body};
use std::alloc::Global;

/// Gathers the reply to a message.
fn gather_reply<O: Outlet>(
    outlet: &mut O,
    answer: Answer,
    body: &[u8],
    message: &Message<'_>,
) -> Result<(), WriteFault>
    ensures whole { OnOk result ((m : Request) → Shows message.now m → Took (O.held outlet.old) (O.held outlet.new) (reply_to m answer body.now)) }
    ensures front { OnErr result ((m : Request) → Shows message.now m → TookFront (O.held outlet.old) (O.held outlet.new) (reply_to m answer body.now)) }
    ensures cause { WritesBy (O.faults outlet.old) (O.faults outlet.new) result }
    ensures same { (O.waiting outlet.new ≡ O.waiting outlet.old) × (O.least outlet.new ≡ O.least outlet.old) }
    ensures place { O.place outlet.new ≡ O.place outlet.old }
{
    outlet.answer(answer, body, !message.keep, asks_no_body(message.verb))
}

/// Takes a message that is no notice, with no notice that waits and with all replies put.
fn answer_other<Y: DayDesk, L: Link + Drop, C: Clock, F: Fn(Round<'_, L>) -> Given<L>, O: Outlet>(
    alloc: Global,
    floor: &mut Floor<'_, Y, L, C, F>,
    keeping: &mut Keeping<O>,
    other: Other<'_>,
    message: &Message<'_>,
) -> Result<(), Stop>
    requires floor { IsFloor Y.DayDesk floor.old }
    requires always { F.IsAlwaysCallable floor.old.gatherer }
    requires gives { (x y : _) → F.post floor.old.gatherer x y → Gave L.Link x y }
    requires settled { IsSettled (O.held keeping.old.outlet) (O.left keeping.old.outlet) (O.least keeping.old.outlet) }
    ensures goes_on { OnOk result (TakesOne Y.DayDesk L.Link C.Clock O.Outlet (ShowsOther message.now other.entry)
        floor.old (none_waits keeping.old.outlet) floor.new (none_waits keeping.new.outlet)) }
    ensures stops { IfErr result (λ stop. StopsIn Y.DayDesk L.Link C.Clock O.Outlet (ShowsOther message.now other.entry)
        floor.old (none_waits keeping.old.outlet) floor.new keeping.new.outlet (end_of stop)) }
    ensures waiting { keeping.new.waiting ≡ keeping.old.waiting }
    ensures floor { IsFloor Y.DayDesk floor.new }
    ensures kept { IsKept Y.DayDesk floor.old floor.new }
    ensures causes { StopCauses (O.faults keeping.old.outlet) (O.faults keeping.new.outlet) result }
    ensures place { O.place keeping.new.outlet ≡ O.place keeping.old.outlet }
{
    match keeping.outlet.expect(1) {
        Ok(()) => match floor.answer(alloc, other, message.body, &mut keeping.body) {
            Ok(answer) => {
                match gather_reply(
                    &mut keeping.outlet,
                    answer,
                    keeping.body.as_bytes(),
                    message,
                ) {
                    Ok(()) => Ok(()),
                    Err(_) => Err(Stop::WriteFault),
                }
            }
            Err(_) => Err(Stop::OutOfMemory),
        },
        Err(_) => Err(Stop::WriteFault),
    }
}

/// Takes a message that is no notice, after the notices that wait and with all replies before it put, since it may wait
/// for bidders.
pub(crate) fn take_other<
    Y: DayDesk,
    L: Link + Drop,
    C: Clock,
    F: Fn(Round<'_, L>) -> Given<L>,
    O: Outlet,
>(
    alloc: Global,
    floor: &mut Floor<'_, Y, L, C, F>,
    keeping: &mut Keeping<O>,
    other: Other<'_>,
    message: &Message<'_>,
) -> Result<(), Stop>
    requires floor { IsFloor Y.DayDesk floor.old }
    requires always { F.IsAlwaysCallable floor.old.gatherer }
    requires gives { (x y : _) → F.post floor.old.gatherer x y → Gave L.Link x y }
    ensures goes_on { OnOk result (TakesOne Y.DayDesk L.Link C.Clock O.Outlet (ShowsOther message.now other.entry)
        floor.old (kept keeping.old) floor.new (kept keeping.new)) }
    ensures stops { IfErr result (λ stop. StopsIn Y.DayDesk L.Link C.Clock O.Outlet (ShowsOther message.now other.entry)
        floor.old (kept keeping.old) floor.new keeping.new.outlet (end_of stop)) }
    ensures floor { IsFloor Y.DayDesk floor.new }
    ensures kept { IsKept Y.DayDesk floor.old floor.new }
    ensures causes { StopCauses (O.faults keeping.old.outlet) (O.faults keeping.new.outlet) result }
    ensures place { O.place keeping.new.outlet ≡ O.place keeping.old.outlet }
{
    match put_all_out(floor, keeping) {
        Ok(()) => answer_other(alloc, floor, keeping, other, message),
        Err(_) => Err(Stop::WriteFault),
    }
}
