//! A link in memory, whose starts go by a plan.
ghost use Rattle.adx_io.specs.Fakes.{counted, failure};
ghost use Rattle.adx_links.specs.Links.{Answers, Asks, Begins, Connects, Exchange, FailsPut, FailsStart, FailsTake, Puts, Takes, TakesFrom, after_put, begun, exchanges_in, next_start};
ghost use Rattle.adx_links.specs.MemoryLinks.{MemoryLinkState, Opens, RunningState, closed, course_of, exchange_of, exchanges_of, given_of, no_content, running_of};
ghost use Rattle.adx_io.specs.Streams.{Gives, HasCause, Rises, own_place, put_of};
ghost use Rattle.std.specs.Prelude.{◌≡◌, ◌⊎◌, ◌↔◌, ◌≤◌, ◌<◌, ◌+◌, List, ℕ, true, false, vec_len, vec_capacity, take, drop, min, ◌∷◌, ◌++◌, [], length, map, slice_get, Option, Some, None, option_map, is_some, IsErr, IsTrue, OnOk, OnErr, IfOk, if◌then◌else◌};

use crate::link::Link;
use crate::planned::Planned;
use adx_io::{Failed, copy_front};
use adx_units::{OutOfMemory, Text};
use std::alloc::Global;
use std::marker::Model;

/// What a start past the end of the plan answers.
pub const NO_CONTENT: &str = "HTTP/1.1 204 No Content\r\n\r\n";

/// An exchange that is over.
#[derive(Debug, Drop)]
struct Ended {
    host: Text,
    port: u16,
    asked: Vec<u8>,
    answered: Vec<u8>,
}

impl Model for Ended {
    ghost use Rattle.adx_links.specs.Links.{Exchange};

    ghost Value = { Exchange };

    ghost view = { λ e. record { host = e.host; port = e.port; asked = e.asked.items; answered = e.answered.items } };
}

/// An exchange that goes on: of its answer so many bytes were given.
#[derive(Debug, Drop)]
struct Running {
    host: Text,
    port: u16,
    asked: Vec<u8>,
    answer: Vec<u8>,
    given: usize,
    put_fails: bool,
    take_fails: Option<u64>,
}

impl Model for Running {
    ghost use Rattle.std.specs.Prelude.{◌≤◌, take, drop, vec_len};
    ghost use Rattle.adx_links.specs.MemoryLinks.{RunningState};

    ghost Value = { RunningState };

    ghost view = { λ r. record {
      host = r.host;
      port = r.port;
      asked = r.asked.items;
      connection = record {
        tape = record { taken = take r.given r.answer.items; left = drop r.given r.answer.items };
        put_fails = r.put_fails;
        take_fails = r.take_fails;
      };
    } };

    ghost invariant = { λ r. r.given ≤ vec_len r.answer };
}

impl Running {
    /// The exchange with a host that answers by this plan.
    fn of(alloc: Global, host: &str, port: u16, planned: &Planned) -> Result<Running, OutOfMemory>
        ensures { IfOk result (λ r. r ≡ running_of host.now port planned.now) }
    {
        Ok(Running {
            host: Text::of(alloc, host)?,
            port,
            asked: Vec::new(alloc),
            answer: Vec::from_slice(alloc, planned.bytes.as_bytes())?,
            given: 0,
            put_fails: planned.put_fails,
            take_fails: planned.take_fails,
        })
    }

    /// Ends it, without memory.
    fn end(self) -> Ended
        ensures { result ≡ exchange_of self }
    {
        let mut answered = self.answer;
        answered.truncate(self.given);
        Ended {
            host: self.host,
            port: self.port,
            asked: self.asked,
            answered,
        }
    }

    /// Asks a piece; it fails by the plan, or where memory is refused.
    fn ask(&mut self, piece: &[u8]) -> Result<usize, Failed>
        ensures amount { IfOk result (λ n. n ≡ length piece.now) }
        ensures planned { IsTrue self.old.connection.put_fails → IsErr result }
        ensures asked { self.new ≡ record self.old { asked = self.old.asked ++ put_of result piece.now; connection = after_put self.old.connection } }
    {
        let fails = self.put_fails;
        self.put_fails = false;
        if fails || self.asked.extend_from_slice(piece).is_err() {
            return Err(Failed);
        }
        Ok(piece.len())
    }

    /// Gives the next bytes of the answer; it fails by the plan alone.
    fn answer(&mut self, out: &mut [u8]) -> Result<usize, Failed>
        ensures amount { IfOk result (λ n. n ≡ min (length out.old) (length self.old.connection.tape.left)) }
        ensures planned { IsErr result ↔ (self.old.connection.take_fails ≡ Some 0) }
        ensures takes { TakesFrom out.new result self.old.connection self.new.connection }
        ensures host { self.new.host ≡ self.old.host }
        ensures port { self.new.port ≡ self.old.port }
        ensures asked { self.new.asked ≡ self.old.asked }
    {
        match self.take_fails {
            Some(0) => {
                self.take_fails = None;
                Err(Failed)
            }
            takes => {
                self.take_fails = takes.map(|n| n - 1);
                Ok(self.give(out))
            }
        }
    }

    /// Gives as many bytes as `out` has room for and the answer has left.
    fn give(&mut self, out: &mut [u8]) -> usize
        ensures amount { result ≡ min (length out.old) (length self.old.connection.tape.left) }
        ensures gives { Gives self.old.connection.tape self.new.connection.tape out.new result }
        ensures same { self.new ≡ record self.old { connection = record self.old.connection { tape = self.new.connection.tape } } }
    {
        let (_, left) = self.answer.split_at(self.given);
        let count = out.len().min(left.len());
        copy_front(out, left, count);
        self.given += count;
        count
    }
}

/// A link in memory that answers by a plan, and keeps what it was asked. It reports all.
#[derive(Debug, Drop)]
pub struct MemoryLink {
    plan: Vec<Planned>,
    past_end: Planned,
    next: usize,
    past: Vec<Ended>,
    running: Option<Running>,
    faults: u64,
}

impl Model for MemoryLink {
    ghost use Rattle.std.specs.Prelude.{◌≡◌, ◌≤◌, ◌<◌, drop, is_some, true, vec_len, vec_capacity};
    ghost use Rattle.adx_links.specs.MemoryLinks.{MemoryLinkState};

    ghost Value = { MemoryLinkState };

    ghost view = { λ l. record {
      past = l.past.items;
      running = l.running;
      plan = record { starts = drop l.next l.plan.items; past_end = l.past_end };
      faults = l.faults;
    } };

    ghost invariant = { λ l. is_some l.running ≡ true → vec_len l.past < vec_capacity l.past };
}

impl MemoryLink {
    /// A link whose starts go by the plan, one after the other; each start past its end answers
    /// `NO_CONTENT`.
    pub fn new(alloc: Global, plan: &[Planned]) -> Result<MemoryLink, OutOfMemory>
        ensures { IfOk result (λ l. l ≡ record {
          past = [];
          running = None;
          plan = record { starts = plan.now; past_end = no_content };
          faults = 0;
        }) }
    {
        let mut kept = Vec::new(alloc);
        for planned in plan {
            kept.push(planned.copy(alloc)?)?;
        }
        Ok(MemoryLink {
            plan: kept,
            past_end: Planned {
                bytes: Text::of(alloc, NO_CONTENT)?,
                start_fails: false,
                put_fails: false,
                take_fails: None,
            },
            next: 0,
            past: Vec::new(alloc),
            running: None,
            faults: 0,
        })
    }

    /// The bytes asked since the start with this number, from 0; None where there was no such start. A
    /// start that failed for lack of memory has no number.
    pub fn asked(&self, start: u32) -> Option<&[u8]>
        ensures { option_map (λ r. r.now) result ≡ slice_get (map (λ (e : Exchange). e.asked) (exchanges_in (exchanges_of self.now))) start }
    {
        match self.past.get(start as usize) {
            Some(ended) => Some(&ended.asked),
            None if start as usize == self.past.len() => match &self.running {
                Some(running) => Some(&running.asked),
                None => None,
            },
            None => None,
        }
    }

    /// Ends the exchange that goes on.
    fn close(&mut self)
        ensures closed { self.new ≡ closed self.old }
        ensures faults { self.new.faults ≡ self.old.faults }
    {
        if let Some(running) = self.running.take() {
            add_within(&mut self.past, running.end());
        }
    }

    /// Takes the next start of the plan, and begins its exchange.
    fn begin(&mut self, host: &str, port: u16) -> Result<(), Failed>
        requires { self.old.running ≡ None }
        ensures begins { Opens host.now port result self.old self.new }
        ensures faults { self.new.faults ≡ self.old.faults }
        ensures planned { IsTrue (next_start self.old.plan).start_fails → IsErr result }
    {
        let planned = self.plan.get(self.next).unwrap_or(&self.past_end);
        let opened = open(&mut self.past, host, port, planned);
        self.next = self.plan.len().min(self.next.saturating_add(1));
        self.running = Some(opened?);
        Ok(())
    }

    /// Counts a fault.
    fn fault(&mut self) -> Failed
        ensures counted { self.new ≡ record self.old { faults = counted self.old.faults } }
        ensures later { self.old.faults ≤ self.new.faults }
        ensures risen { Rises self.old.faults self.new.faults }
    {
        self.faults = self.faults.saturating_add(1);
        Failed
    }
}

/// Begins an exchange, with room for its end among those that are over. One whose start fails by the
/// plan is over at once.
fn open(past: &mut Vec<Ended>, host: &str, port: u16, planned: &Planned) -> Result<Running, Failed>
    ensures planned { IsTrue planned.now.start_fails → IsErr result }
    ensures opened { IfOk result (λ r. r ≡ running_of host.now port planned.now) }
    ensures kept { OnOk result (past.new.items ≡ past.old.items) }
    ensures room { OnOk result (vec_len past.new < vec_capacity past.new) }
    ensures failed { OnErr result ((past.new.items ≡ past.old.items) ⊎ (past.new.items ≡ past.old.items ++ begun host.now port ∷ [])) }
{
    match ready(past, host, port, planned) {
        Ok(running) if planned.start_fails => {
            add_within(past, running.end());
            Err(Failed)
        }
        Ok(running) => Ok(running),
        Err(_) => Err(Failed),
    }
}

/// An exchange and room for its end.
fn ready(
    past: &mut Vec<Ended>,
    host: &str,
    port: u16,
    planned: &Planned,
) -> Result<Running, OutOfMemory>
    ensures value { IfOk result (λ r. r ≡ running_of host.now port planned.now) }
    ensures same { past.new.items ≡ past.old.items }
    ensures room { OnOk result (vec_len past.new < vec_capacity past.new) }
{
    past.reserve(1)?;
    Running::of(*past.allocator(), host, port, planned)
}

/// Adds an exchange that is over, without memory.
fn add_within(past: &mut Vec<Ended>, ended: Ended)
    requires { vec_len past.old < vec_capacity past.old }
    ensures { past.new.items ≡ past.old.items ++ ended ∷ [] }
{
    let pushed = past.push(ended);
    prove!(pushed.is_ok());
}

impl Link for MemoryLink {
    ghost use Rattle.std.specs.Prelude.{Some};
    ghost use Rattle.adx_links.specs.MemoryLinks.{MemoryLinkState, exchanges_of, course_of};
    ghost use Rattle.adx_io.specs.Streams.{own_place};

    ghost faults = { λ l. l.faults };

    ghost exchanges = { λ l. Some (exchanges_of l) };

    ghost course = { λ l. Some (course_of l) };

    fn start(&mut self, host: &str, port: u16) -> Result<(), Failed>
        ensures begins { Begins host.now port result (exchanges_of self.old) (exchanges_of self.new) }
        ensures connects { Connects result (course_of self.old) (course_of self.new) }
        ensures planned { FailsStart (course_of self.old) → IsErr result }
        ensures cause { HasCause self.old.faults self.new.faults result }
        ensures same { own_place ≡ own_place }
    {
        self.close();
        match self.begin(host, port) {
            Ok(()) => Ok(()),
            Err(_) => Err(self.fault()),
        }
    }

    fn put(&mut self, piece: &[u8]) -> Result<usize, Failed>
        ensures count { IfOk result (λ n. n ≤ length piece.now) }
        ensures some { IfOk result (λ n. 0 < length piece.now → 0 < n) }
        ensures asks { Asks (put_of result piece.now) (exchanges_of self.old) (exchanges_of self.new) }
        ensures goes_on { (exchanges_of self.old).now ≡ None → IsErr result }
        ensures puts { Puts (course_of self.old) (course_of self.new) }
        ensures planned { FailsPut (course_of self.old).now → IsErr result }
        ensures cause { HasCause self.old.faults self.new.faults result }
        ensures same { own_place ≡ own_place }
        ensures amount { IfOk result (λ n. n ≡ length piece.now) }
    {
        match &mut self.running {
            Some(running) => match running.ask(piece) {
                Ok(count) => Ok(count),
                Err(_) => Err(self.fault()),
            },
            None => Err(self.fault()),
        }
    }

    fn take(&mut self, out: &mut [u8]) -> Result<usize, Failed>
        ensures count { IfOk result (λ n. n ≤ length out.old) }
        ensures answers { Answers (put_of result out.new) (exchanges_of self.old) (exchanges_of self.new) }
        ensures goes_on { (exchanges_of self.old).now ≡ None → IsErr result }
        ensures takes { Takes out.new result (course_of self.old) (course_of self.new) }
        ensures planned { FailsTake (course_of self.old).now → IsErr result }
        ensures cause { HasCause self.old.faults self.new.faults result }
        ensures same { own_place ≡ own_place }
        ensures fails { IsErr result → FailsTake (course_of self.old).now }
        ensures amount { IfOk result (λ n. n ≡ given_of (length out.old) self.old) }
    {
        match &mut self.running {
            Some(running) => match running.answer(out) {
                Ok(count) => Ok(count),
                Err(_) => Err(self.fault()),
            },
            None => Err(self.fault()),
        }
    }
}
