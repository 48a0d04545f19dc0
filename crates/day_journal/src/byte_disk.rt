//! A disk in memory that keeps its bytes once.
ghost use Rattle.day_journal.specs.Disks.{written};
ghost use Rattle.std.specs.Prelude.{◌≡◌, ◌<◌, ◌∷◌, ◌++◌, [], vec_len, vec_capacity, OnOk, OnErr};

use crate::disk::Disk;
use crate::file_bytes::{copy_from, overwrite};
use adx_io::Failed;
use adx_units::OutOfMemory;
use std::alloc::Global;
use std::marker::Model;
use std::snapshot::Snapshot;

/// A disk that is its bytes in memory: they are kept once, a write is durable at once, and a crash leaves what a read
/// gives. It tells them, and fails only where memory is refused, or where a write is past what memory could hold.
#[derive(Drop)]
pub struct ByteDisk {
    bytes: Vec<u8>,
    /// What it held before each write, for proofs alone: these take no memory.
    past: Vec<Snapshot<Vec<u8>>>,
    faults: u64,
}

impl Model for ByteDisk {
    ghost use Rattle.std.specs.Prelude.{map};
    ghost use Rattle.day_journal.specs.ByteDisks.{ByteDiskState};

    ghost Value = { ByteDiskState };

    ghost view = { λ d. record {
      past = map (λ was. was.value.items) d.past.items;
      bytes = d.bytes.items;
      faults = d.faults;
    } };
}

impl ByteDisk {
    /// An empty disk.
    pub fn new(alloc: Global) -> ByteDisk
        ensures { result ≡ record { past = []; bytes = []; faults = 0 } }
    {
        ByteDisk {
            bytes: Vec::new(alloc),
            past: Vec::new(alloc),
            faults: 0,
        }
    }

    /// Puts a piece into the bytes; where memory is refused nothing changes.
    fn put(&mut self, at: u64, piece: &[u8]) -> Result<(), OutOfMemory>
        ensures ok { OnOk result (self.new ≡ record self.old {
          past = self.old.past ++ self.old.bytes ∷ [];
          bytes = written at piece.now self.old.bytes;
        }) }
        ensures err { OnErr result (self.new ≡ self.old) }
    {
        let was = Snapshot::of(&self.bytes);
        self.past.reserve(1)?;
        overwrite(&mut self.bytes, at, piece)?;
        note(&mut self.past, was);
        Ok(())
    }
}

/// Adds what was held without memory.
fn note(past: &mut Vec<Snapshot<Vec<u8>>>, was: Snapshot<Vec<u8>>)
    requires { vec_len past.old < vec_capacity past.old }
    ensures { past.new.items ≡ past.old.items ++ was ∷ [] }
{
    let pushed = past.push(was);
    prove!(pushed.is_ok());
}

impl Disk for ByteDisk {
    ghost use Rattle.std.specs.Prelude.{Some, length, ⊤};
    ghost use Rattle.day_journal.specs.ByteDisks.{HeldSince};
    ghost use Rattle.day_journal.specs.ByteDiskLaws.{read_is_held, held_now, held_last};

    ghost faults = { λ d. d.faults };

    ghost reads = { λ d. Some d.bytes };

    ghost may_leave = { λ d c. c ≡ d.bytes };

    ghost moment = { λ d. length d.past };

    ghost left_since = { HeldSince };

    ghost lasts = { λ _ _. ⊤ };

    ghost lasts_same = { λ _. record {} };

    ghost lasts_on = { λ _ _ _ _ _. record {} };

    ghost read_is_left = { read_is_held };

    ghost counts_now = { held_now };

    ghost only_now = { held_last };

    fn size(&mut self) -> Result<u64, Failed> {
        Ok(self.bytes.len() as u64)
    }

    fn read(&mut self, at: u64, out: &mut [u8]) -> Result<usize, Failed> {
        Ok(copy_from(&self.bytes, at, out))
    }

    fn write_at(&mut self, at: u64, piece: &[u8]) -> Result<(), Failed> {
        match self.put(at, piece) {
            Ok(()) => Ok(()),
            Err(_) => {
                self.faults = self.faults.saturating_add(1);
                Err(Failed)
            }
        }
    }

    fn sync(&mut self) -> Result<(), Failed> {
        Ok(())
    }
}
