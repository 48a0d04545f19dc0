//! Hosts that failed lately.

use crate::locked::locked;
use adx_units::Text;
use std::alloc::Global;
use std::sync::Mutex;

/// How often in a row a host fails until it is cold.
pub const FAILURES: u32 = 3;

/// For how long a host that became cold isn't called, in milliseconds.
pub const FIRST_REST: u64 = 1_000;

/// For how long a host isn't called at most. The time doubles with each try that fails.
pub const LONGEST_REST: u64 = 60_000;

/// How many hosts are kept. Where there are more, the one is forgotten that may be called for the longest time.
pub const MOST_HOSTS: usize = 256;

/// For how long a cold host isn't tried a second time once it is tried.
const ONE_TRY: u64 = 4_000;

/// What a try changed of its host.
#[derive(Clone, Copy, Debug, PartialEq, Eq)]
pub enum Change {
    /// Nothing that counts.
    Same,
    /// It isn't called for a while.
    Cold,
    /// It is called again.
    Warm,
}

/// A host that failed lately.
#[derive(Drop)]
struct Host {
    name: Text,
    port: u16,
    /// How often in a row it failed while it was warm.
    failures: u32,
    /// For how long it isn't called; 0 where it is warm.
    rest: u64,
    /// Until when it isn't called.
    until: u64,
    /// Whether a call that is to warm it is under way.
    tried: bool,
}

impl Host {
    /// Whether it is this one.
    fn is(&self, name: &str, port: u16) -> bool {
        self.port == port && self.name.as_str() == name
    }

    /// How long it isn't called yet; 0 where it may be, and then a cold one is tried by this call alone.
    fn wait(&mut self, now: u64) -> u64 {
        if self.rest == 0 {
            return 0;
        }
        if now < self.until {
            return self.until - now;
        }
        self.until = now.saturating_add(ONE_TRY);
        self.tried = true;
        0
    }

    /// A call of it failed. Calls that began while it was warm don't make it colder.
    fn fail(&mut self, now: u64) -> Change {
        if self.rest != 0 {
            if self.tried {
                self.tried = false;
                self.rest = self.rest.saturating_mul(2).min(LONGEST_REST);
                self.until = now.saturating_add(self.rest);
            }
            return Change::Same;
        }
        self.failures = self.failures.saturating_add(1);
        if self.failures < FAILURES {
            return Change::Same;
        }
        self.rest = FIRST_REST;
        self.until = now.saturating_add(FIRST_REST);
        self.tried = false;
        Change::Cold
    }

    /// A call of it did not fail.
    fn answer(&mut self) -> Change {
        let change = if self.rest == 0 {
            Change::Same
        } else {
            Change::Warm
        };
        self.failures = 0;
        self.rest = 0;
        self.tried = false;
        change
    }
}

/// The hosts that failed lately, which threads may share.
#[derive(Drop)]
pub struct Hosts {
    alloc: Global,
    list: Mutex<Vec<Host>>,
}

/// How long a host isn't called yet.
fn wait_of(list: &mut [Host], name: &str, port: u16, now: u64) -> u64 {
    for host in list.iter_mut() {
        if host.is(name, port) {
            return host.wait(now);
        }
    }
    0
}

/// A call of a host that is kept failed; None where it isn't kept.
fn fail_in(list: &mut [Host], name: &str, port: u16, now: u64) -> Option<Change> {
    for host in list.iter_mut() {
        if host.is(name, port) {
            return Some(host.fail(now));
        }
    }
    None
}

/// Forgets the host that may be called for the longest time.
fn forget_one(list: &mut Vec<Host>) {
    let mut at: usize = 0;
    let mut least = u64::MAX;
    for (place, host) in list.iter().enumerate() {
        if host.until < least {
            least = host.until;
            at = place;
        }
    }
    if at < list.len() {
        let _ = list.swap_remove(at);
    }
}

/// A call of a host did not fail.
fn answer_in(list: &mut [Host], name: &str, port: u16) -> Change {
    for host in list.iter_mut() {
        if host.is(name, port) {
            return host.answer();
        }
    }
    Change::Same
}

impl Hosts {
    /// No host failed yet.
    pub fn new(alloc: Global) -> Hosts {
        Hosts {
            alloc,
            list: Mutex::new(Vec::new(alloc)),
        }
    }

    /// For how many milliseconds a host isn't called yet; 0 where it may be called now. A cold host is then tried by this
    /// caller alone for a while.
    pub fn wait(&self, name: &str, port: u16, now: u64) -> u64 {
        match locked(&self.list) {
            Some(mut list) => wait_of(list.as_mut_slice(), name, port, now),
            None => 0,
        }
    }

    /// A call of a host failed. Where memory is refused it isn't kept.
    pub fn failed(&self, name: &str, port: u16, now: u64) -> Change {
        let Some(mut list) = locked(&self.list) else {
            return Change::Same;
        };
        if let Some(change) = fail_in(list.as_mut_slice(), name, port, now) {
            return change;
        }
        if list.len() >= MOST_HOSTS {
            forget_one(&mut list);
        }
        if let Ok(name) = Text::of(self.alloc, name) {
            let _ = list.push(Host {
                name,
                port,
                failures: 1,
                rest: 0,
                until: now,
                tried: false,
            });
        }
        Change::Same
    }

    /// A call of a host did not fail.
    pub fn answered(&self, name: &str, port: u16) -> Change {
        match locked(&self.list) {
            Some(mut list) => answer_in(list.as_mut_slice(), name, port),
            None => Change::Same,
        }
    }
}
