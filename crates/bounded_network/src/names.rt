//! Names of hosts that were looked up.
ghost use Rattle.std.specs.Prelude.{◌≡◌, ◌≤◌, length, IfOk};

use crate::locked::locked;
use crate::reach::Reach;
use crate::times::millis;
use adx_units::Text;
use std::alloc::Global;
use std::io;
use std::io::ErrorKind;
use std::net::{IpAddr, Ipv4Addr, Ipv6Addr, Net, SocketAddr};
use std::sync::Mutex;
use std::time::Clock;

/// How many names are kept. A further one is looked up at each call.
pub const MOST_NAMES: usize = 256;

/// For how long a name that wasn't found isn't looked up again, in milliseconds.
pub const FIRST_MISSING: u64 = 60_000;

/// For how long a name that wasn't found isn't looked up again at most, in milliseconds. The time doubles with each look-up that
/// doesn't find it.
pub const LONGEST_MISSING: u64 = 600_000;

/// How many addresses of a name are kept.
const ADDRESSES: usize = 2;

/// The addresses that are kept of a name; none where it wasn't found.
#[derive(Clone, Copy)]
struct Known {
    first: Option<SocketAddr>,
    second: Option<SocketAddr>,
}

/// A name that was looked up.
#[derive(Drop)]
struct Name {
    name: Text,
    known: Known,
    /// For how long it isn't looked up again, where it wasn't found.
    rest: u64,
    /// Until when that is.
    until: u64,
}

impl Name {
    /// What is known of it; None where it is to be looked up again. It is looked up by this caller alone: until the time of its
    /// next rest is over it counts as not found for all others.
    fn known(&mut self, now: u64) -> Option<Known> {
        if self.known.first.is_some() || now < self.until {
            return Some(self.known);
        }
        self.rest = self.rest.saturating_mul(2).min(LONGEST_MISSING);
        self.until = now.saturating_add(self.rest);
        None
    }

    /// It was looked up. Addresses that are kept of it stay where none was found.
    fn learn(&mut self, known: Known, now: u64) {
        if known.first.is_some() {
            self.known = known;
        }
        self.until = now.saturating_add(self.rest);
    }
}

/// The names that were looked up, which threads may share.
#[derive(Drop)]
pub struct Names {
    alloc: Global,
    list: Mutex<Vec<Name>>,
}

/// What is kept of a name; None where it is to be looked up.
fn known_in(list: &mut [Name], host: &str, now: u64) -> Option<Known> {
    for name in list.iter_mut() {
        if name.name.as_str() == host {
            return name.known(now);
        }
    }
    None
}

/// Keeps what was learned of a name; false where it isn't in the list.
fn keep_in(list: &mut [Name], host: &str, known: Known, now: u64) -> bool {
    for name in list.iter_mut() {
        if name.name.as_str() == host {
            name.learn(known, now);
            return true;
        }
    }
    false
}

/// Puts an address at a place, if there is one and the place is there, and gives the next place.
fn put(found: &mut [SocketAddr], at: usize, address: Option<SocketAddr>, port: u16) -> usize
    requires { at ≤ length found.old }
    ensures length { length found.new ≡ length found.old }
    ensures within { result ≤ length found.new }
{
    let Some(mut address) = address else {
        return at;
    };
    if at >= found.len() {
        return at;
    }
    address.set_port(port);
    found[at] = address;
    at + 1
}

/// Puts what is known of a name in front.
fn put_known(known: Known, port: u16, found: &mut [SocketAddr]) -> io::Result<usize>
    ensures { IfOk result (λ n. n ≤ length found.new) }
{
    if known.first.is_none() {
        return Err(io::Error::from(ErrorKind::NotFound));
    }
    let at = put(found, 0, known.first, port);
    Ok(put(found, at, known.second, port))
}

/// The address that a host is, where it is one: in the brackets of a URL (RFC 3986, 3.2.2), where it is of IPv6.
fn address_in(host: &str) -> Option<IpAddr> {
    if let Some(rest) = host.strip_prefix("[") {
        let inner = rest.strip_suffix("]")?;
        return match inner.parse::<Ipv6Addr>() {
            Ok(address) => Some(IpAddr::V6(address)),
            Err(_) => None,
        };
    }
    host.parse::<IpAddr>().ok()
}

impl Names {
    /// No name was looked up yet.
    pub fn new(alloc: Global) -> Names {
        Names {
            alloc,
            list: Mutex::new(Vec::new(alloc)),
        }
    }

    /// Keeps what was learned of a name. Where memory is refused it isn't kept.
    fn keep(&self, host: &str, known: Known, now: u64) {
        let Some(mut list) = locked(&self.list) else {
            return;
        };
        if keep_in(list.as_mut_slice(), host, known, now) || list.len() >= MOST_NAMES {
            return;
        }
        if let Ok(name) = Text::of(self.alloc, host) {
            let _ = list.push(Name {
                name,
                known,
                rest: FIRST_MISSING,
                until: now.saturating_add(FIRST_MISSING),
            });
        }
    }

    /// What is kept of a name; None where it is to be looked up.
    fn known(&self, host: &str, now: u64) -> Option<Known> {
        let mut list = locked(&self.list)?;
        known_in(list.as_mut_slice(), host, now)
    }

    /// What the network says of a name, which is kept from now on.
    fn learned<R: Net + Clock>(&self, rt: &R, host: &str, port: u16) -> Known {
        let mut found = [SocketAddr::from((Ipv4Addr::UNSPECIFIED, 0)); ADDRESSES];
        let count = rt.lookup_host(host, port, &mut found).unwrap_or(0);
        let known = Known {
            first: if count > 0 {
                found.get(0).copied()
            } else {
                None
            },
            second: if count > 1 {
                found.get(1).copied()
            } else {
                None
            },
        };
        self.keep(host, known, millis(rt));
        known
    }

    /// The first addresses of a host, at most two: the one that it is, those that are kept of its name, or those that the network
    /// says, which are kept from now on. A name that wasn't found isn't looked up again for a minute, then for two, up to ten,
    /// as long as it isn't found; while a caller looks it up again, it is not found at once for all others. A host without a name
    /// is none.
    pub fn look_up<R: Net + Clock>(
        &self,
        rt: &R,
        host: &str,
        port: u16,
        found: &mut [SocketAddr],
    ) -> io::Result<usize>
        ensures { IfOk result (λ n. n ≤ length found.new) }
    {
        if host.is_empty() {
            return Err(io::Error::from(ErrorKind::NotFound));
        }
        let known = match address_in(host) {
            Some(address) => Known {
                first: Some(SocketAddr::from((address, port))),
                second: None,
            },
            None => match self.known(host, millis(rt)) {
                Some(known) => known,
                None => self.learned(rt, host, port),
            },
        };
        put_known(known, port, found)
    }

    /// Whether a host has an address, and none that may be called.
    pub fn is_beyond<R: Net + Clock>(&self, rt: &R, host: &str, port: u16, reach: Reach) -> bool {
        let mut found = [SocketAddr::from((Ipv4Addr::UNSPECIFIED, 0)); ADDRESSES];
        match self.look_up(rt, host, port, &mut found) {
            Ok(count) => {
                0 < count && !found.iter().take(count).any(|address| reach.has(address))
            }
            Err(_) => false,
        }
    }

    /// These addresses, and all of the kinds that a host's are of.
    pub fn with_host<R: Net + Clock>(&self, rt: &R, host: &str, port: u16, reach: Reach) -> Reach {
        let mut found = [SocketAddr::from((Ipv4Addr::UNSPECIFIED, 0)); ADDRESSES];
        let count = self.look_up(rt, host, port, &mut found).unwrap_or(0);
        let mut reach = reach;
        for address in found.iter().take(count) {
            reach = reach.with(address.ip());
        }
        reach
    }
}
