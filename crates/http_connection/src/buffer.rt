//! The memory of a connection as two lists of bytes.
ghost use Rattle.std.specs.Prelude.{◌≡◌, ◌≤◌, ◌<◌, ◌+◌, ◌++◌, ℕ, List, [], length, take, drop, IfOk, OnErr, Ok, true, false};
ghost use Rattle.adx_io.specs.Streams.{HasCause};
ghost use Rattle.http_connection.specs.BufferState.{Takes, IsAtEnd};

use crate::offsets::{Offsets, between, join, make_room, take_behind};
use adx_io::{Failed, Source};
use adx_units::OutOfMemory;
use std::alloc::Global;
use std::marker::Model;

/// The memory of a connection.
#[derive(Drop)]
pub struct Buffer {
    bytes: Vec<u8>,
    offsets: Offsets,
}

impl Model for Buffer {
    ghost use Rattle.std.specs.Prelude.{length};
    ghost use Rattle.http_connection.specs.BufferState.{BufferState};
    ghost use Rattle.http_connection.specs.Order.{IsOrdered, kept_of, pending_of};

    ghost Value = { BufferState };

    ghost view = { λ b. record {
      kept = kept_of b.bytes.items b.offsets;
      pending = pending_of b.bytes.items b.offsets;
      room = length b.bytes.items;
    } };

    ghost invariant = { λ b. IsOrdered b.bytes.items b.offsets };
}

impl Buffer {
    ghost use Rattle.http_connection.specs.BufferState.{BufferState};

    /// An empty buffer with room for so many bytes.
    pub fn new(alloc: Global, room: usize) -> Result<Buffer, OutOfMemory>
        ensures { IfOk result (λ b. b ≡ record { kept = []; pending = []; room = room }) }
    {
        Ok(Buffer {
            bytes: vec![in alloc; 0; room]?,
            offsets: Offsets {
                start: 0,
                joined: 0,
                at: 0,
                end: 0,
            },
        })
    }

    /// What was read of the message in progress. With the pending bytes it is at most the room.
    pub fn kept(&self) -> &[u8]
        ensures value { result.now ≡ self.now.kept }
        ensures fits { length self.now.kept + length self.now.pending ≤ self.now.room }
    {
        between(&self.bytes, self.offsets.start, self.offsets.joined)
    }

    /// The bytes that aren't judged.
    pub fn pending(&self) -> &[u8]
        ensures { result.now ≡ self.now.pending }
    {
        between(&self.bytes, self.offsets.at, self.offsets.end)
    }

    /// Lets go what was kept; nothing moves.
    pub fn release(&mut self)
        ensures { self.new ≡ record self.old { kept = [] } }
    {
        self.offsets.start = self.offsets.at;
        self.offsets.joined = self.offsets.at;
    }

    /// Lets go all bytes.
    pub fn clear(&mut self)
        ensures { self.new ≡ record self.old { kept = []; pending = [] } }
    {
        self.offsets = Offsets {
            start: 0,
            joined: 0,
            at: 0,
            end: 0,
        };
    }

    /// Passes over the first `count` pending bytes.
    pub fn skip(&mut self, count: usize)
        requires { count ≤ length self.old.pending }
        ensures { self.new ≡ record self.old { pending = drop count self.old.pending } }
    {
        self.offsets.at += count;
    }

    /// Joins the first `count` pending bytes to what is kept. They move only where bytes were passed
    /// over since the last ones were joined.
    pub fn keep(&mut self, count: usize)
        requires { count ≤ length self.old.pending }
        ensures { self.new ≡ record self.old {
          kept = self.old.kept
              ++ take count self.old.pending;
          pending = drop count self.old.pending;
        } }
    {
        self.offsets = join(&mut self.bytes, self.offsets, count);
    }

    /// Takes the next bytes of the source after the pending ones; false at its end. All bytes move
    /// to the front where there is no room after them. After a fault nothing was taken.
    pub fn fill<S: Source>(&mut self, source: &mut S) -> Result<bool, Failed>
        requires { length self.old.kept + length self.old.pending < self.old.room }
        ensures takes { Takes self.old self.new (S.tape source.old) (S.tape source.new) }
        ensures some { result ≡ Ok true → length self.old.pending < length self.new.pending }
        ensures none { result ≡ Ok false → self.new.pending ≡ self.old.pending }
        ensures ended { result ≡ Ok false → IsAtEnd (S.tape source.new) }
        ensures unread { OnErr result (self.new.pending ≡ self.old.pending) }
        ensures fits { length self.new.kept + length self.new.pending ≤ self.new.room }
        ensures cause { HasCause (S.faults source.old) (S.faults source.new) result }
        ensures same { S.place source.new ≡ S.place source.old }
    {
        self.offsets = make_room(&mut self.bytes, self.offsets);
        let end = self.offsets.end;
        match take_behind(&mut self.bytes, end, source) {
            Ok(0) => Ok(false),
            Ok(count) => {
                self.offsets.end = end + count;
                Ok(true)
            }
            Err(failed) => Err(failed),
        }
    }
}
