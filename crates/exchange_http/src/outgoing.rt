//! Replies that are gathered before a sink takes them.
ghost use Rattle.std.specs.Prelude.{◌≡◌, ◌≤◌, ◌∷◌, [], length, drop, IfOk, OnOk, vec_capacity};
ghost use Rattle.std.specs.Io.KnownBytes.{append_known};
ghost use Rattle.day_machine.specs.declared.batch.TheConstants.{BATCH_LIMIT as batch_limit};
ghost use Rattle.adx_io.specs.Streams.{HasCause};
ghost use Rattle.exchange_http.specs.Gathered.{count_of};
ghost use Rattle.exchange_http.specs.declared.outgoing.TheConstants.{ROOM as room_size};

use crate::outlet::Outlet;
use adx_http::WriteFault;
use adx_io::{Failed, Sink};
use adx_units::OutOfMemory;
use day_machine::BATCH_LIMIT;
use http_service::{Answer, write_answer, write_refusal};
use std::alloc::Global;
use std::snapshot::Snapshot;

/// How many bytes of replies are gathered.
const ROOM: usize = 16_384;

/// Room for the replies that are gathered.
pub(crate) fn room(alloc: Global) -> Result<Vec<u8>, OutOfMemory>
    ensures none { IfOk result (λ v. v.items ≡ []) }
    ensures room { IfOk result (λ v. room_size ≤ vec_capacity v) }
{
    Ok(Vec::with_capacity(alloc, ROOM)?)
}

/// A sink, and the replies that it is still to take.
#[derive(Drop)]
pub(crate) struct Outgoing<K: Sink> {
    sink: K,
    bytes: Vec<u8>,
    /// How many of the bytes the sink took.
    put: usize,
    /// How many replies were expected since the sink took all.
    waiting: u32,
    /// The sink when it last had all that was gathered.
    settled: Snapshot<K>,
    ghost room: { room_size ≤ vec_capacity bytes },
    ghost full: { length bytes.items ≤ room_size },
    ghost within: { put ≤ length bytes.items },
    ghost few: { waiting ≤ batch_limit },
    ghost grown: { count_of (K.held settled.value) ≤ count_of (K.held sink) },
}

impl<K: Sink> Outgoing<K> {
    /// Nothing is gathered for the sink.
    pub(crate) fn over(bytes: Vec<u8>, sink: K) -> Outgoing<K>
        requires none { bytes.items ≡ [] }
        requires room { room_size ≤ vec_capacity bytes }
        ensures sink { result.sink ≡ sink }
        ensures none { (drop result.put result.bytes.items ≡ []) × (result.waiting ≡ 0) × (result.settled.value ≡ sink) }
    {
        let settled = Snapshot::of(&sink);
        Outgoing {
            sink,
            bytes,
            put: 0,
            waiting: 0,
            settled,
        }
    }

    /// Puts all that is gathered.
    fn send(&mut self) -> Result<(), Failed>
        ensures held { append_known (K.held self.new.sink) (drop self.new.put self.new.bytes.items)
            ≡ append_known (K.held self.old.sink) (drop self.old.put self.old.bytes.items) }
        ensures none { OnOk result ((self.new.bytes.items ≡ []) × (self.new.put ≡ 0)) }
        ensures cause { HasCause (K.faults self.old.sink) (K.faults self.new.sink) result }
        ensures place { K.place self.new.sink ≡ K.place self.old.sink }
        ensures same { (self.new.waiting ≡ self.old.waiting) × (self.new.settled.value ≡ self.old.settled.value) }
    {
        'pieces: while self.put < self.bytes.len() {
            match self.sink.put(&self.bytes[self.put..]) {
                Ok(count) => self.put += count,
                Err(failed) => return Err(failed),
            }
        }
        self.bytes.clear();
        self.put = 0;
        Ok(())
    }
}

impl<K: Sink + Drop> Outgoing<K> {
    /// Gives back the sink.
    pub(crate) fn close(self) -> K
        ensures { result ≡ self.sink }
    {
        self.sink
    }
}

impl<K: Sink> Sink for Outgoing<K> {
    ghost use Rattle.std.specs.Prelude.{◌∷◌, drop};
    ghost use Rattle.std.specs.Io.KnownBytes.{append_known};
    ghost use Rattle.exchange_http.specs.Gathered.{count_of};

    ghost faults = { λ o. K.faults o.sink };

    /// What the sink took, and after it what is gathered.
    ghost held = { λ o. append_known (K.held o.sink) (drop o.put o.bytes.items) };

    /// With the counts that no call of a sink changes.
    ghost place = { λ o. o.waiting ∷ count_of (K.held o.settled.value) ∷ K.place o.sink };

    fn put(&mut self, piece: &[u8]) -> Result<usize, Failed> {
        if piece.len() > ROOM - self.bytes.as_slice().len() {
            self.send()?;
        }
        if piece.len() > ROOM {
            return self.sink.put(piece);
        }
        match self.bytes.extend_from_slice(piece) {
            Ok(()) => Ok(piece.len()),
            Err(_) => unreachable!(),
        }
    }
}

impl<K: Sink> Outlet for Outgoing<K> {
    ghost use Rattle.std.specs.Prelude.{◌∷◌, drop, refl};
    ghost use Rattle.std.specs.Io.KnownBytes.{append_known};
    ghost use Rattle.exchange_http.specs.Gathered.{count_of};

    ghost held = { λ o. append_known (K.held o.sink) (drop o.put o.bytes.items) };

    ghost sunk = { λ o. K.held o.sink };

    ghost left = { λ o. drop o.put o.bytes.items };

    ghost least = { λ o. count_of (K.held o.settled.value) };

    ghost waiting = { λ o. o.waiting };

    ghost faults = { λ o. K.faults o.sink };

    ghost place = { λ o. K.place o.sink };

    ghost is_held = { λ o. refl };

    ghost is_least = { λ o. o.grown };

    ghost is_few = { λ o. o.few };

    fn answer(
        &mut self,
        answer: Answer,
        body: &[u8],
        close: bool,
        head: bool,
    ) -> Result<(), WriteFault> {
        write_answer(self, answer, body, close, head)
    }

    fn refuse(&mut self, status: u16) -> Result<(), WriteFault> {
        write_refusal(self, status)
    }

    fn put_out(&mut self) -> Result<(), Failed> {
        self.send()?;
        self.waiting = 0;
        self.settled = Snapshot::of(&self.sink);
        Ok(())
    }

    fn expect(&mut self, count: u32) -> Result<(), Failed> {
        if self.waiting + count > BATCH_LIMIT as u32 {
            self.put_out()?;
        }
        self.waiting += count;
        Ok(())
    }
}
