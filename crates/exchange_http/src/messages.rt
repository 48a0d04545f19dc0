//! The messages of a connection, one after another.
ghost use Rattle.std.specs.Prelude.{◌≡◌, ℕ, [], false, IsNone, IfOk, OnOk, IfErr};
ghost use Rattle.http_connection.specs.Answers.{Shows};
ghost use Rattle.http_service.specs.declared.limits.TheConstants.{REQUEST_LIMIT as request_limit};
ghost use Rattle.exchange_messages.specs.Floors.{Gave, IsFloor, IsKept};
ghost use Rattle.exchange_http.specs.Going.{StopsAmong, StopsIn, TakesAll, TakesNext, TakesOne, TakesRead, kept, read_so};
ghost use Rattle.exchange_http.specs.Running.{IsSettled, OverCauses, StepCauses, StopCauses, end_of, fault_over};

use crate::keeping::{Keeping, put_all_out};
use crate::notices::take_notice;
use crate::others::take_other;
use crate::outlet::Outlet;
use crate::over::Over;
use crate::stop::Stop;
use adx_desk::DayDesk;
use adx_http::{Conn, HttpFault, Message};
use adx_io::Source;
use adx_links::Link;
use exchange_messages::{Clock, Floor, Given, Round, Wanted, wanted_by};
use http_service::MESSAGE_LIMIT;
use std::alloc::Global;

/// Takes a message.
fn take_message<Y: DayDesk, L: Link + Drop, C: Clock, F: Fn(Round<'_, L>) -> Given<L>, O: Outlet>(
    alloc: Global,
    floor: &mut Floor<'_, Y, L, C, F>,
    keeping: &mut Keeping<O>,
    message: &Message<'_>,
) -> Result<(), Stop>
    requires floor { IsFloor Y.DayDesk floor.old }
    requires always { F.IsAlwaysCallable floor.old.gatherer }
    requires gives { (x y : _) → F.post floor.old.gatherer x y → Gave L.Link x y }
    ensures goes_on { OnOk result (TakesOne Y.DayDesk L.Link C.Clock O.Outlet (Shows message.now)
        floor.old (kept keeping.old) floor.new (kept keeping.new)) }
    ensures stops { IfErr result (λ stop. StopsIn Y.DayDesk L.Link C.Clock O.Outlet (Shows message.now)
        floor.old (kept keeping.old) floor.new keeping.new.outlet (end_of stop)) }
    ensures floor { IsFloor Y.DayDesk floor.new }
    ensures kept { IsKept Y.DayDesk floor.old floor.new }
    ensures causes { StopCauses (O.faults keeping.old.outlet) (O.faults keeping.new.outlet) result }
    ensures place { O.place keeping.new.outlet ≡ O.place keeping.old.outlet }
{
    match wanted_by(alloc, message) {
        Ok(Wanted::Notice(kind, auction, award)) => {
            match take_notice(floor, keeping, kind, auction.as_str(), award, !message.keep) {
                Ok(()) => Ok(()),
                Err(_) => Err(Stop::WriteFault),
            }
        }
        Ok(Wanted::Other(other)) => take_other(alloc, floor, keeping, other, message),
        Err(_) => match put_all_out(floor, keeping) {
            Ok(()) => Err(Stop::OutOfMemory),
            Err(_) => Err(Stop::WriteFault),
        },
    }
}

/// Takes a message that was read. None where more may come.
fn take_read<Y: DayDesk, L: Link + Drop, C: Clock, F: Fn(Round<'_, L>) -> Given<L>, O: Outlet>(
    alloc: Global,
    floor: &mut Floor<'_, Y, L, C, F>,
    keeping: &mut Keeping<O>,
    message: &Message<'_>,
) -> Result<Option<Over>, Stop>
    requires floor { IsFloor Y.DayDesk floor.old }
    requires always { F.IsAlwaysCallable floor.old.gatherer }
    requires gives { (x y : _) → F.post floor.old.gatherer x y → Gave L.Link x y }
    ensures gives { TakesRead Y.DayDesk L.Link C.Clock O.Outlet message.now
        floor.old (kept keeping.old) floor.new (kept keeping.new) result }
    ensures floor { IsFloor Y.DayDesk floor.new }
    ensures kept { IsKept Y.DayDesk floor.old floor.new }
    ensures causes { (faults : ℕ) → StepCauses faults faults (O.faults keeping.old.outlet) (O.faults keeping.new.outlet) result }
    ensures place { O.place keeping.new.outlet ≡ O.place keeping.old.outlet }
{
    match take_message(alloc, floor, keeping, message) {
        Ok(()) => {
            if message.keep {
                Ok(None)
            } else {
                Ok(Some(Over::Closed))
            }
        }
        Err(stop) => Err(stop),
    }
}

/// What a fault of the next message comes to.
fn over_by(fault: HttpFault) -> Result<Option<Over>, Stop>
    ensures { result ≡ fault_over fault }
{
    match fault {
        HttpFault::ReadFault => Err(Stop::ReadFault),
        HttpFault::BadHead => Ok(Some(Over::Fault(HttpFault::BadHead))),
        HttpFault::HeadTooLong => Ok(Some(Over::Fault(HttpFault::HeadTooLong))),
        HttpFault::LengthRequired => Ok(Some(Over::Fault(HttpFault::LengthRequired))),
        HttpFault::BodyTooLong => Ok(Some(Over::Fault(HttpFault::BodyTooLong))),
        HttpFault::BadChunk => Ok(Some(Over::Fault(HttpFault::BadChunk))),
        HttpFault::Cut => Ok(Some(Over::Fault(HttpFault::Cut))),
        HttpFault::Coding => Ok(Some(Over::Fault(HttpFault::Coding))),
    }
}

/// Reads the next message and takes it, with no notice that waits and with all replies put. None where more may come.
fn read_next<
    Y: DayDesk,
    L: Link + Drop,
    C: Clock,
    F: Fn(Round<'_, L>) -> Given<L>,
    S: Source,
    O: Outlet,
>(
    alloc: Global,
    floor: &mut Floor<'_, Y, L, C, F>,
    keeping: &mut Keeping<O>,
    conn: &mut Conn,
    source: &mut S,
) -> Result<Option<Over>, Stop>
    requires floor { IsFloor Y.DayDesk floor.old }
    requires always { F.IsAlwaysCallable floor.old.gatherer }
    requires gives { (x y : _) → F.post floor.old.gatherer x y → Gave L.Link x y }
    requires sound { conn.old.failed ≡ false }
    requires limit { conn.old.limit ≡ request_limit }
    requires none { keeping.old.waiting.batch.calls ≡ [] }
    requires settled { IsSettled (O.held keeping.old.outlet) (O.left keeping.old.outlet) (O.least keeping.old.outlet) }
    ensures gives { TakesNext Y.DayDesk L.Link C.Clock O.Outlet
        floor.old (kept keeping.old) (read_so (S.tape source.old) conn.old.held)
        floor.new (kept keeping.new) (read_so (S.tape source.new) conn.new.held) result }
    ensures floor { IsFloor Y.DayDesk floor.new }
    ensures kept { IsKept Y.DayDesk floor.old floor.new }
    ensures causes { StepCauses (S.faults source.old) (S.faults source.new) (O.faults keeping.old.outlet) (O.faults keeping.new.outlet) result }
    ensures goes_on { IfOk result (λ over. IsNone over → conn.new.failed ≡ false) }
    ensures limit { conn.new.limit ≡ conn.old.limit }
    ensures source { S.place source.new ≡ S.place source.old }
    ensures place { O.place keeping.new.outlet ≡ O.place keeping.old.outlet }
{
    match conn.next_message(source) {
        Ok(Some(message)) => take_read(alloc, floor, keeping, &message),
        Ok(None) => Ok(Some(Over::Closed)),
        Err(fault) => over_by(fault),
    }
}

/// Takes the next message. Where it isn't whole yet, the notices that wait are taken and all replies are put before more
/// is taken from the source. None where more may come.
fn serve_next<
    Y: DayDesk,
    L: Link + Drop,
    C: Clock,
    F: Fn(Round<'_, L>) -> Given<L>,
    S: Source,
    O: Outlet,
>(
    alloc: Global,
    floor: &mut Floor<'_, Y, L, C, F>,
    keeping: &mut Keeping<O>,
    conn: &mut Conn,
    source: &mut S,
) -> Result<Option<Over>, Stop>
    requires floor { IsFloor Y.DayDesk floor.old }
    requires always { F.IsAlwaysCallable floor.old.gatherer }
    requires gives { (x y : _) → F.post floor.old.gatherer x y → Gave L.Link x y }
    requires sound { conn.old.failed ≡ false }
    requires limit { conn.old.limit ≡ request_limit }
    ensures gives { TakesNext Y.DayDesk L.Link C.Clock O.Outlet
        floor.old (kept keeping.old) (read_so (S.tape source.old) conn.old.held)
        floor.new (kept keeping.new) (read_so (S.tape source.new) conn.new.held) result }
    ensures floor { IsFloor Y.DayDesk floor.new }
    ensures kept { IsKept Y.DayDesk floor.old floor.new }
    ensures causes { StepCauses (S.faults source.old) (S.faults source.new) (O.faults keeping.old.outlet) (O.faults keeping.new.outlet) result }
    ensures goes_on { IfOk result (λ over. IsNone over → conn.new.failed ≡ false) }
    ensures limit { conn.new.limit ≡ conn.old.limit }
    ensures source { S.place source.new ≡ S.place source.old }
    ensures place { O.place keeping.new.outlet ≡ O.place keeping.old.outlet }
{
    match conn.held_message() {
        Some(message) => take_read(alloc, floor, keeping, &message),
        None => match put_all_out(floor, keeping) {
            Ok(()) => read_next(alloc, floor, keeping, conn, source),
            Err(_) => Err(Stop::WriteFault),
        },
    }
}

/// Takes messages up to the last that is read.
pub(crate) fn serve_all<
    Y: DayDesk,
    L: Link + Drop,
    C: Clock,
    F: Fn(Round<'_, L>) -> Given<L>,
    S: Source,
    O: Outlet,
>(
    alloc: Global,
    floor: &mut Floor<'_, Y, L, C, F>,
    keeping: &mut Keeping<O>,
    conn: &mut Conn,
    source: &mut S,
) -> Result<Over, Stop>
    requires floor { IsFloor Y.DayDesk floor.old }
    requires always { F.IsAlwaysCallable floor.old.gatherer }
    requires gives { (x y : _) → F.post floor.old.gatherer x y → Gave L.Link x y }
    requires sound { conn.old.failed ≡ false }
    requires limit { conn.old.limit ≡ request_limit }
    ensures over { IfOk result (TakesAll Y.DayDesk L.Link C.Clock O.Outlet
        floor.old (kept keeping.old) (read_so (S.tape source.old) conn.old.held)
        floor.new (kept keeping.new) (S.tape source.new)) }
    ensures stops { IfErr result (λ stop. StopsAmong Y.DayDesk L.Link C.Clock O.Outlet
        floor.old (kept keeping.old) (read_so (S.tape source.old) conn.old.held)
        floor.new keeping.new.outlet (S.tape source.new) (end_of stop)) }
    ensures floor { IsFloor Y.DayDesk floor.new }
    ensures kept { IsKept Y.DayDesk floor.old floor.new }
    ensures causes { OverCauses (S.faults source.old) (S.faults source.new) (O.faults keeping.old.outlet) (O.faults keeping.new.outlet) result }
    ensures source { S.place source.new ≡ S.place source.old }
    ensures place { O.place keeping.new.outlet ≡ O.place keeping.old.outlet }
{
    'messages: for _served in 0..MESSAGE_LIMIT {
        match serve_next(alloc, floor, keeping, conn, source) {
            Ok(Some(over)) => return Ok(over),
            Ok(None) => {}
            Err(stop) => return Err(stop),
        }
    }
    Ok(Over::Spent)
}
