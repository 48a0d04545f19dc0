//! What is asked of a host.
ghost use Rattle.std.specs.Prelude.{◌≡◌, ◌<◌, length, take, IfSome, IsErr, IsTrue};
ghost use Rattle.adx_links.specs.Links.{FailsPut, FailsStart, next_start};
ghost use Rattle.adx_io.specs.Streams.{HasCause, WhereTold};
ghost use Rattle.adx_http.specs.Exchanging.{AsksAll, AskedIn, StandsAs, WaitsForAnswer};

use adx_io::Failed;
use adx_links::Link;

/// Calls a host at a port, and asks it the request, whole and in one piece. `Failed` comes only where the link failed, and
/// then some front of it was asked, or the start may have left nothing at all.
pub fn ask<L: Link>(link: &mut L, host: &str, port: u16, request: &[u8]) -> Result<(), Failed>
    ensures talk { WhereTold (L.exchanges link.old) (L.exchanges link.new) (AskedIn host.now port request.now result) }
    ensures plan { WhereTold (L.course link.old) (L.course link.new) (WaitsForAnswer result) }
    ensures start_planned { IfSome (L.course link.old) (λ c. FailsStart c → IsErr result) }
    ensures put_planned { IfSome (L.course link.old) (λ c. 0 < length request.now → IsTrue (next_start c.plan).put_fails → IsErr result) }
    ensures cause { HasCause (L.faults link.old) (L.faults link.new) result }
    ensures same { L.place link.new ≡ L.place link.old }
{
    link.start(host, port)?;
    put_whole(link, request)
}

/// Asks the whole piece over the open connection. After a fault some front of it was asked.
fn put_whole<L: Link>(link: &mut L, piece: &[u8]) -> Result<(), Failed>
    ensures asks { WhereTold (L.exchanges link.old) (L.exchanges link.new) (AsksAll piece.now result) }
    ensures stands { WhereTold (L.course link.old) (L.course link.new) StandsAs }
    ensures planned { IfSome (L.course link.old) (λ c. 0 < length piece.now → FailsPut c.now → IsErr result) }
    ensures cause { HasCause (L.faults link.old) (L.faults link.new) result }
    ensures same { L.place link.new ≡ L.place link.old }
{
    let mut rest = piece;
    while !rest.is_empty() {
        match link.put(rest) {
            Ok(count) => rest = rest.split_at(count).1,
            Err(failed) => return Err(failed),
        }
    }
    Ok(())
}
