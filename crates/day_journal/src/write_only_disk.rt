//! A disk in memory that keeps its first bytes alone.
ghost use Rattle.day_journal.specs.Disks.{written};
ghost use Rattle.std.specs.Prelude.{◌≡◌, ◌<◌, ◌≤◌, ◌+◌, ◌∷◌, ◌++◌, [], map, length, vec_len, vec_capacity, IfOk, OnOk, OnErr};

use crate::disk::Disk;
use crate::file_bytes::{copy_from, overwrite};
use adx_io::Failed;
use adx_units::OutOfMemory;
use std::alloc::Global;
use std::marker::Model;
use std::snapshot::Snapshot;

/// The most bytes that can be read.
const FRONT: u64 = 4_096;

/// A write: where, and what.
#[derive(Drop)]
struct Put {
    at: u64,
    piece: Vec<u8>,
}

impl Model for Put {
    ghost use Rattle.day_journal.specs.WriteOnlyDisks.{Write};

    ghost Value = { Write };

    ghost view = { λ p. record { at = p.at; piece = p.piece.items } };
}

/// A disk in memory for what is written and not read again, as the journal of a day that no file keeps. A contract sees
/// what it sees of a `ByteDisk`: all bytes, which are durable at once and which a crash leaves. But no more than the first
/// 4,096 of them and the last write are kept: a read of a longer file fails. A write fails only where memory is refused,
/// or past 2^64 bytes.
#[derive(Drop)]
pub struct WriteOnlyDisk {
    front: Vec<u8>,
    size: u64,
    last: Put,
    /// All writes, for proofs alone: these take no memory.
    puts: Vec<Snapshot<Put>>,
    faults: u64,
}

impl Model for WriteOnlyDisk {
    ghost use Rattle.std.specs.Prelude.{◌≡◌, ◌≤◌, [], length, map};
    ghost use Rattle.day_journal.specs.ByteDisks.{ByteDiskState};
    ghost use Rattle.day_journal.specs.WriteOnlyDisks.{before_each, behind};

    ghost Value = { ByteDiskState };

    ghost view = { λ d. record {
      past = before_each [] (map (λ put. put.value) d.puts.items);
      bytes = behind [] (map (λ put. put.value) d.puts.items);
      faults = d.faults;
    } };

    ghost invariant = { λ d. (d.size ≡ length (behind [] (map (λ put. put.value) d.puts.items)))
        × (d.size ≤ 4096 → d.front.items ≡ behind [] (map (λ put. put.value) d.puts.items)) };
}

impl WriteOnlyDisk {
    /// An empty disk.
    pub fn new(alloc: Global) -> WriteOnlyDisk
        ensures { result ≡ record { past = []; bytes = []; faults = 0 } }
    {
        WriteOnlyDisk {
            front: Vec::new(alloc),
            size: 0,
            last: Put {
                at: 0,
                piece: Vec::new(alloc),
            },
            puts: Vec::new(alloc),
            faults: 0,
        }
    }

    /// Puts a piece into the bytes; where memory is refused nothing changes.
    fn put(&mut self, at: u64, piece: &[u8]) -> Result<(), OutOfMemory>
        ensures ok { OnOk result (self.new ≡ record self.old {
          past = self.old.past ++ self.old.bytes ∷ [];
          bytes = written at piece.now self.old.bytes;
        }) }
        ensures err { OnErr result (self.new ≡ self.old) }
    {
        let end = end_of(at, piece)?;
        let size = self.size.max(end);
        copy_to(&mut self.last, at, piece)?;
        self.puts.reserve(1)?;
        keep(&mut self.front, size, at, piece)?;
        self.size = size;
        note(&mut self.puts, &self.last);
        Ok(())
    }
}

/// Where a piece ends.
fn end_of(at: u64, piece: &[u8]) -> Result<u64, OutOfMemory>
    ensures { IfOk result (λ end. end ≡ at + length piece.now) }
{
    at.checked_add(piece.len() as u64).ok_or(OutOfMemory)
}

/// Makes a write that of a piece at a place.
fn copy_to(last: &mut Put, at: u64, piece: &[u8]) -> Result<(), OutOfMemory>
    ensures { OnOk result (last.new ≡ record { at = at; piece = piece.now }) }
{
    last.at = at;
    last.piece.clear();
    last.piece.extend_from_slice(piece)?;
    Ok(())
}

/// Puts a piece into the bytes that are kept, unless all are too many with it; where memory is refused nothing changes.
fn keep(front: &mut Vec<u8>, size: u64, at: u64, piece: &[u8]) -> Result<(), OutOfMemory>
    ensures ok { OnOk result (size ≤ FRONT → front.new.items ≡ written at piece.now front.old.items) }
    ensures err { OnErr result (front.new.items ≡ front.old.items) }
{
    if size <= FRONT {
        overwrite(front, at, piece)?;
    }
    Ok(())
}

/// Adds a write without memory.
fn note(puts: &mut Vec<Snapshot<Put>>, last: &Put)
    requires { vec_len puts.old < vec_capacity puts.old }
    ensures { map (λ put. put.value) puts.new.items ≡ map (λ put. put.value) puts.old.items ++ last.now ∷ [] }
{
    let pushed = puts.push(Snapshot::of(last));
    prove!(pushed.is_ok());
}

impl Disk for WriteOnlyDisk {
    ghost use Rattle.std.specs.Prelude.{Some, length, ⊤};
    ghost use Rattle.day_journal.specs.ByteDisks.{HeldSince};
    ghost use Rattle.day_journal.specs.ByteDiskLaws.{read_is_held, held_now, held_last};

    ghost faults = { λ d. d.faults };

    ghost reads = { λ d. Some d.bytes };

    ghost may_leave = { λ d c. c ≡ d.bytes };

    ghost moment = { λ d. length d.past };

    ghost left_since = { HeldSince };

    ghost lasts = { λ _ _. ⊤ };

    ghost lasts_same = { λ _. record {} };

    ghost lasts_on = { λ _ _ _ _ _. record {} };

    ghost read_is_left = { read_is_held };

    ghost counts_now = { held_now };

    ghost only_now = { held_last };

    fn size(&mut self) -> Result<u64, Failed> {
        Ok(self.size)
    }

    fn read(&mut self, at: u64, out: &mut [u8]) -> Result<usize, Failed> {
        if self.size > FRONT {
            self.faults = self.faults.saturating_add(1);
            return Err(Failed);
        }
        Ok(copy_from(&self.front, at, out))
    }

    fn write_at(&mut self, at: u64, piece: &[u8]) -> Result<(), Failed> {
        match self.put(at, piece) {
            Ok(()) => Ok(()),
            Err(_) => {
                self.faults = self.faults.saturating_add(1);
                Err(Failed)
            }
        }
    }

    fn sync(&mut self) -> Result<(), Failed> {
        Ok(())
    }
}
