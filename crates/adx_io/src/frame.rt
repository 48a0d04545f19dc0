//! The bytes of one record of a journal.
ghost use Rattle.adx_io.specs.Frames.{record_of};
ghost use Rattle.std.specs.Int.{to_le_bytes, w32};
ghost use Rattle.std.specs.Prelude.{◌≡◌, ◌≤◌, ◌+◌, ◌++◌, [], length, min, take, drop, vec_len, vec_capacity, IfOk, IsOk, OnOk, OnErr};

use adx_units::OutOfMemory;
use std::alloc::Global;
use std::marker::Model;

/// The longest payload of a record, in bytes.
const LONGEST_PAYLOAD: usize = 67_108_864;

/// The bytes of a record after its gate: the length of the payload in four bytes, least first, the
/// payload, and a closed gate. A frame is used for one record after another.
#[derive(Debug, Drop)]
pub struct Frame {
    bytes: Vec<u8>,
    mark: usize,
}

impl Model for Frame {
    ghost use Rattle.std.specs.Prelude.{◌≤◌, ◌+◌, ◌-◌, length, min, take, vec_len, vec_capacity};
    ghost use Rattle.adx_io.specs.Frames.{FrameState, IsRecord, longest_payload, payload_in};

    ghost Value = { FrameState };

    ghost view = { λ f. record {
      payload = payload_in f.bytes.items;
      marked = take f.mark (payload_in f.bytes.items);
      spare = min (vec_capacity f.bytes - vec_len f.bytes) (longest_payload - (vec_len f.bytes - 5));
    } };

    ghost invariant = { λ f. IsRecord f.bytes.items × (f.mark + 5 ≤ vec_len f.bytes) };
}

impl Frame {
    ghost use Rattle.adx_io.specs.Frames.{longest_payload};

    /// A frame with an empty payload and room for one of so many bytes.
    pub fn new(alloc: Global, capacity: usize) -> Result<Frame, OutOfMemory>
        ensures { IfOk result (λ f. (f.payload ≡ []) × (min capacity longest_payload ≤ f.spare)) }
    {
        let room = capacity.checked_add(5).ok_or(OutOfMemory)?;
        let mut bytes = Vec::with_capacity(alloc, room)?;
        empty(&mut bytes);
        Ok(Frame { bytes, mark: 0 })
    }

    /// Takes the payload out, and keeps the room.
    pub fn clear(&mut self)
        ensures payload { self.new.payload ≡ [] }
        ensures spare { self.old.spare + length self.old.payload ≤ self.new.spare }
    {
        self.mark = 0;
        empty(&mut self.bytes);
    }

    /// The payload so far.
    pub fn payload(&self) -> &[u8]
        ensures { result.now ≡ self.now.payload }
    {
        let end = self.bytes.len() - 1;
        &self.bytes[4..end]
    }

    /// For how many bytes more there is room without memory.
    pub fn spare(&self) -> usize
        ensures { result ≡ self.now.spare }
    {
        let len = self.bytes.len();
        (self.bytes.capacity() - len).min(LONGEST_PAYLOAD - (len - 5))
    }

    /// The record after its gate: the payload's length, the payload and a closed gate.
    pub fn record_bytes(&self) -> &[u8]
        ensures spelled { result.now ≡ record_of self.now.payload }
        ensures fits { length self.now.payload ≤ longest_payload }
    {
        self.bytes.as_slice()
    }

    /// Adds a piece to the payload; a payload that would be too long is refused as out of memory.
    pub fn push(&mut self, piece: &[u8]) -> Result<(), OutOfMemory>
        ensures ok { OnOk result (self.new.payload ≡ self.old.payload ++ piece.now) }
        ensures err { OnErr result (self.new.payload ≡ self.old.payload) }
        ensures succeeds { length piece.now ≤ self.old.spare → IsOk result }
        ensures spare { self.old.spare ≤ self.new.spare + length piece.now }
        ensures room { self.old.spare + length self.old.payload ≤ self.new.spare + length self.new.payload }
        ensures marked { self.new.marked ≡ self.old.marked }
    {
        let len = self.bytes.len() - 5;
        if piece.len() > LONGEST_PAYLOAD - len {
            return Err(OutOfMemory);
        }
        lengthen(&mut self.bytes, len, piece)?;
        Ok(())
    }

    /// Marks the payload so far, so that what is added to it can be taken back.
    pub fn mark(&mut self)
        ensures { self.new ≡ record self.old { marked = self.old.payload } }
    {
        self.mark = self.bytes.len() - 5;
    }

    /// Takes back what was added to the payload since it was marked, or all where it wasn't, and keeps the room.
    pub fn take_back(&mut self)
        ensures payload { self.new.payload ≡ self.old.marked }
        ensures spare { self.old.spare ≤ self.new.spare }
        ensures room { self.old.spare + length self.old.payload ≤ self.new.spare + length self.new.payload }
    {
        shorten(&mut self.bytes, self.mark);
    }
}

/// Makes of a vector with room for it the record of an empty payload.
fn empty(bytes: &mut Vec<u8>)
    requires { 5 ≤ vec_capacity bytes.old }
    ensures items { bytes.new.items ≡ record_of [] }
    ensures capacity { vec_capacity bytes.old ≤ vec_capacity bytes.new }
{
    bytes.clear();
    let added = bytes.extend_from_slice(&0u32.to_le_bytes());
    prove!(added.is_ok());
    bytes.push_reserved(0);
}

/// Makes of the record of a payload of so many bytes that of a longer one.
fn lengthen(bytes: &mut Vec<u8>, len: usize, piece: &[u8]) -> Result<(), OutOfMemory>
    requires place { vec_len bytes.old ≡ len + 5 }
    requires fits { len + length piece.now ≤ LONGEST_PAYLOAD }
    ensures ok { OnOk result (bytes.new.items ≡ record_of (take len (drop 4 bytes.old.items) ++ piece.now)) }
    ensures err { OnErr result (bytes.new.items ≡ bytes.old.items) }
    ensures succeeds { vec_len bytes.old + length piece.now ≤ vec_capacity bytes.old → IsOk result }
    ensures capacity { vec_capacity bytes.old ≤ vec_capacity bytes.new }
{
    bytes.reserve(piece.len())?;
    bytes.truncate(len + 4);
    let added = bytes.extend_from_slice(piece);
    prove!(added.is_ok());
    bytes.push_reserved(0);
    put_length(bytes, (len + piece.len()) as u32);
    Ok(())
}

/// Makes of the record of a payload that of its first bytes.
fn shorten(bytes: &mut Vec<u8>, len: usize)
    requires there { len + 5 ≤ vec_len bytes.old }
    requires fits { len ≤ LONGEST_PAYLOAD }
    ensures items { bytes.new.items ≡ record_of (take len (drop 4 bytes.old.items)) }
    ensures capacity { vec_capacity bytes.old ≤ vec_capacity bytes.new }
{
    bytes.truncate(len + 4);
    bytes.push_reserved(0);
    put_length(bytes, len as u32);
}

/// Writes a length over the first four bytes.
fn put_length(bytes: &mut [u8], len: u32)
    requires { 4 ≤ length bytes.old }
    ensures len { length bytes.new ≡ length bytes.old }
    ensures bytes { bytes.new ≡ to_le_bytes w32 len ++ drop 4 bytes.old }
{
    bytes[..4].copy_from_slice(&len.to_le_bytes());
}
