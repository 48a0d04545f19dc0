//! A link whose starts answer the replies of a list, and whose calls take no memory.
ghost use Rattle.std.specs.Prelude.{◌≡◌, ◌≤◌, ◌<◌, [], drop, length, map, min, take, vec_len, true, false, IfOk, IfSome, IsErr, None, OnErr, OnOk, Option, Some};
ghost use Rattle.adx_io.specs.Streams.{Gives, HasCause, own_place, put_of};
ghost use Rattle.adx_links.specs.Links.{Connects, FailsPut, FailsStart, FailsTake, Puts, Takes, connection_of};
ghost use Rattle.two_books.specs.Replaying.{course_of, failing, faults_of, link_of, most_faults, planned_of, silent};

use adx_io::{Failed, copy_front};
use adx_links::Link;
use adx_units::Sequence;
use std::alloc::Global;
use std::collections::VecDeque;
use std::marker::Model;

/// What comes back of a message that was sent.
#[derive(Debug, Drop)]
pub(crate) enum Reply {
    /// Nothing: a fault of the link.
    Lost,
    /// These bytes.
    Came { bytes: Sequence<u8> },
}

/// The connection of a start: so many bytes of its reply were given.
#[derive(Debug, Drop)]
struct Answering {
    reply: Vec<u8>,
    given: usize,
    fails: bool,
}

impl Model for Answering {
    ghost use Rattle.std.specs.Prelude.{◌≤◌, None, drop, take, vec_len};
    ghost use Rattle.adx_links.specs.Links.{Connection};

    ghost Value = { Connection };

    ghost view = { λ a. record {
      tape = record { taken = take a.given a.reply.items; left = drop a.given a.reply.items };
      put_fails = a.fails;
      take_fails = None;
    } };

    ghost invariant = { λ a. a.given ≤ vec_len a.reply };
}

impl Answering {
    /// The connection that answers no byte.
    fn silent(alloc: Global) -> Answering
        ensures { result ≡ connection_of silent }
    {
        Answering {
            reply: Vec::new(alloc),
            given: 0,
            fails: false,
        }
    }

    /// The connection of which that comes back.
    fn of(alloc: Global, reply: Reply) -> Answering
        ensures { result ≡ connection_of (planned_of reply) }
    {
        match reply {
            Reply::Lost => Answering {
                reply: Vec::new(alloc),
                given: 0,
                fails: true,
            },
            Reply::Came { bytes } => Answering {
                reply: bytes.into_vec(),
                given: 0,
                fails: false,
            },
        }
    }

    /// Whether the next put fails.
    fn fails(&self) -> bool
        ensures { result ≡ self.now.put_fails }
    {
        self.fails
    }

    /// A put has come: none fails from now on.
    fn meet(&mut self)
        ensures { self.new ≡ record self.old { put_fails = false } }
    {
        self.fails = false;
    }

    /// Gives as many bytes as `out` has room for and the reply has left.
    fn give(&mut self, out: &mut [u8]) -> usize
        ensures amount { result ≡ min (length out.old) (length self.old.tape.left) }
        ensures gives { Gives self.old.tape self.new.tape out.new result }
        ensures same { self.new ≡ record self.old { tape = self.new.tape } }
        ensures sure { self.old.take_fails ≡ None }
    {
        let (_, left) = self.reply.split_at(self.given);
        let count = out.len().min(left.len());
        copy_front(out, left, count);
        self.given += count;
        count
    }
}

/// A link whose starts answer these replies, one after the other. A contract sees the connection that is there, what the starts
/// to come do, and how many failures were passed over.
#[derive(Debug, Drop)]
pub(crate) struct ReplayLink {
    alloc: Global,
    replies: VecDeque<Reply>,
    now: Answering,
    missed: u64,
}

impl Model for ReplayLink {
    ghost use Rattle.std.specs.Prelude.{◌<◌, map};
    ghost use Rattle.two_books.specs.Replaying.{ReplayState, most_faults, planned_of, unmet};

    ghost Value = { ReplayState };

    ghost view = { λ l. record { now = l.now; starts = map planned_of l.replies.items; missed = l.missed } };

    ghost invariant = { λ l. unmet (record { now = l.now; starts = map planned_of l.replies.items; missed = l.missed }) < most_faults };
}

impl ReplayLink {
    /// A link before its first start.
    pub(crate) fn new(alloc: Global, replies: Vec<Reply>) -> ReplayLink
        ensures link { result ≡ link_of (map planned_of replies.items) }
        ensures few { failing (map planned_of replies.items) < most_faults }
    {
        ReplayLink {
            alloc,
            replies: VecDeque::from_vec(replies),
            now: Answering::silent(alloc),
            missed: 0,
        }
    }
}

impl Link for ReplayLink {
    ghost use Rattle.std.specs.Prelude.{None, Some};
    ghost use Rattle.two_books.specs.Replaying.{course_of, faults_of};

    ghost faults = { faults_of };

    ghost exchanges = { λ _. None };

    ghost course = { λ l. Some (course_of l) };

    fn start(&mut self, _host: &str, _port: u16) -> Result<(), Failed>
        ensures connects { Connects result (course_of self.old) (course_of self.new) }
        ensures planned { FailsStart (course_of self.old) → IsErr result }
        ensures cause { HasCause (faults_of self.old) (faults_of self.new) result }
        ensures same { own_place ≡ own_place }
    {
        if self.now.fails() {
            self.missed += 1;
        }
        self.now = match self.replies.pop_front() {
            Some(reply) => Answering::of(self.alloc, reply),
            None => Answering::silent(self.alloc),
        };
        Ok(())
    }

    fn put(&mut self, piece: &[u8]) -> Result<usize, Failed>
        ensures count { IfOk result (λ n. n ≤ length piece.now) }
        ensures some { IfOk result (λ n. 0 < length piece.now → 0 < n) }
        ensures puts { Puts (course_of self.old) (course_of self.new) }
        ensures planned { FailsPut (course_of self.old).now → IsErr result }
        ensures cause { HasCause (faults_of self.old) (faults_of self.new) result }
        ensures same { own_place ≡ own_place }
    {
        let fails = self.now.fails();
        self.now.meet();
        if fails { Err(Failed) } else { Ok(piece.len()) }
    }

    fn take(&mut self, out: &mut [u8]) -> Result<usize, Failed>
        ensures count { IfOk result (λ n. n ≤ length out.old) }
        ensures takes { Takes out.new result (course_of self.old) (course_of self.new) }
        ensures planned { FailsTake (course_of self.old).now → IsErr result }
        ensures cause { HasCause (faults_of self.old) (faults_of self.new) result }
        ensures same { own_place ≡ own_place }
    {
        Ok(self.now.give(out))
    }
}
