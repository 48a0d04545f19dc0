//! One exchange.
ghost use Rattle.std.specs.Prelude.{◌≡◌, ◌<◌, length, IfOk, IfSome, IsTrue, Err};
ghost use Rattle.adx_links.specs.Links.{FailsStart, next_start};
ghost use Rattle.adx_io.specs.Streams.{WhereTold};
ghost use Rattle.http_connection.specs.Steps.{ReadsBy};
ghost use Rattle.http_grammar.specs.declared.fault.HttpFault.{HttpFault};
ghost use Rattle.adx_http.specs.Exchanging.{Answered, AnswersFront, Exchanged, HeardFrom, HeardSome, Hears, IsCleared};

use crate::asking::ask;
use crate::hearer::Hearer;
use crate::link_end::{Lent, LinkEnd};
use adx_links::Link;
use http_connection::{Conn, HttpFault};
use std::marker::Brand;

/// Calls a host at a port over the link, asks it the request, whole and in one piece, and lets the hearer hear the response.
/// `conn` reads it and is cleared before the call. `ReadFault` comes only where the link failed; the other faults are those
/// of the response.
pub fn exchange<L: Link, H: Hearer + Drop>(
    link: &mut L,
    conn: &mut Conn,
    host: &str,
    port: u16,
    request: &[u8],
    hearer: H,
) -> Result<H::Heard, HttpFault>
    ensures talk { WhereTold (L.exchanges link.old) (L.exchanges link.new) (Exchanged host.now port request.now result) }
    ensures answer { WhereTold (L.course link.old) (L.course link.new) (Answered H.hears hearer conn.old.limit result) }
    ensures front { IfSome (L.course link.old) (λ c. WhereTold (L.exchanges link.old) (L.exchanges link.new) (AnswersFront c)) }
    ensures heard { IfOk result (λ h. HeardSome H.hears hearer h) }
    ensures start_planned { IfSome (L.course link.old) (λ c. FailsStart c → result ≡ Err HttpFault.ReadFault) }
    ensures put_planned { IfSome (L.course link.old) (λ c. 0 < length request.now → IsTrue (next_start c.plan).put_fails → result ≡ Err HttpFault.ReadFault) }
    ensures cause { ReadsBy (L.faults link.old) (L.faults link.new) result }
    ensures same { L.place link.new ≡ L.place link.old }
    ensures limit { conn.new.limit ≡ conn.old.limit }
{
    conn.clear();
    if ask(link, host, port, request).is_err() {
        return Err(HttpFault::ReadFault);
    }
    hear_answer::<L, H, Brand>(link, conn, hearer)
}

/// Reads the response that comes over the open connection.
fn hear_answer<L: Link, H: Hearer + Drop, B: Lent>(
    link: &mut L,
    conn: &mut Conn,
    hearer: H,
) -> Result<H::Heard, HttpFault>
    requires talk { B.talk ≡ L.exchanges link.old }
    requires plan { B.plan ≡ L.course link.old }
    requires cleared { IsCleared conn.old }
    ensures hears { Hears B.talk (L.exchanges link.new) B.plan (L.course link.new) }
    ensures answer { WhereTold (L.course link.old) (L.course link.new) (HeardFrom H.hears hearer conn.old.limit result) }
    ensures heard { IfOk result (λ h. HeardSome H.hears hearer h) }
    ensures cause { ReadsBy (L.faults link.old) (L.faults link.new) result }
    ensures same { L.place link.new ≡ L.place link.old }
    ensures limit { conn.new.limit ≡ conn.old.limit }
{
    let mut end = LinkEnd::<&mut L, B>::new(&mut *link);
    let heard = match conn.read_response(&mut end) {
        Ok(response) => Ok(hearer.hear(response.status, response.body)),
        Err(fault) => Err(fault),
    };
    end.close();
    heard
}
