//! A disk in memory, with the images that a crash may leave of it.
ghost use Rattle.day_journal.specs.Disks.{Shows, written};
ghost use Rattle.adx_io.specs.Fakes.{counted};
ghost use Rattle.day_journal.specs.MemoryDisks.{HasCome};
ghost use Rattle.adx_io.specs.Streams.{HasCause, Rises};
ghost use Rattle.std.specs.Prelude.{◌≡◌, ◌≤◌, ◌<◌, ◌↔◌, List, ℕ, true, false, vec_len, vec_capacity, ◌+◌, ◌^◌, take, drop, replicate, ◌∷◌, ◌++◌, [], length, Option, Some, None, IsErr, IsTrue, OnOk, OnErr, IfOk, if◌then◌else◌};

use crate::disk::Disk;
use crate::file_bytes::{copy_from, overwrite};
use adx_io::Failed;
use adx_units::{OutOfMemory, Sequence};
use std::alloc::Global;
use std::marker::Model;

/// What was done to a disk in memory.
#[derive(Debug, Drop)]
pub enum Change {
    /// A write; one that failed isn't read, and may still be left by a crash.
    Write {
        at: u64,
        piece: Sequence<u8>,
        done: bool,
    },
    /// A sync that succeeded.
    Sync,
}

/// A disk that keeps its bytes and all its changes in memory, and fails by a list. It tells all.
#[derive(Debug, Drop)]
pub struct MemoryDisk {
    start: Vec<u8>,
    changes: Vec<Change>,
    bytes: Vec<u8>,
    fails: Vec<u64>,
    stop: Option<u64>,
    calls: u64,
    faults: u64,
}

impl Model for MemoryDisk {
    ghost use Rattle.std.specs.Prelude.{◌≡◌};
    ghost use Rattle.day_journal.specs.MemoryDisks.{MemoryDiskState, reading};

    ghost Value = { MemoryDiskState };

    ghost view = { λ d. record {
      start = d.start.items;
      changes = d.changes.items;
      habits = record { fails = d.fails.items; stop = d.stop; calls = d.calls; faults = d.faults };
    } };

    ghost invariant = { λ d. d.bytes.items ≡ reading d.start.items d.changes.items };
}

impl MemoryDisk {
    ghost use Rattle.day_journal.specs.declared.memory_disk.Change.{Change};
    ghost use Rattle.day_journal.specs.MemoryDisks.{FailsNext, IsImage, habits_after, image_of, new_disk, reads_of};

    /// A disk of these bytes, all of them durable. The calls with a number in `fails`, from 0, fail, and
    /// every call from number `stop` on.
    pub fn new(
        alloc: Global,
        bytes: &[u8],
        fails: &[u64],
        stop: Option<u64>,
    ) -> Result<MemoryDisk, OutOfMemory>
        ensures { IfOk result (λ d. d ≡ record {
          start = bytes.now;
          changes = [];
          habits = record { fails = fails.now; stop = stop; calls = 0; faults = 0 };
        }) }
    {
        Ok(MemoryDisk {
            start: Vec::from_slice(alloc, bytes)?,
            changes: Vec::new(alloc),
            bytes: Vec::from_slice(alloc, bytes)?,
            fails: Vec::from_slice(alloc, fails)?,
            stop,
            calls: 0,
            faults: 0,
        })
    }

    /// A disk that reads as one image: of the writes since the last sync that succeeded, in order, the
    /// write with the number i, from 0, is there where `pick[i]` is true, and else its range holds
    /// `fill`; a pick that is missing is false. Its calls don't fail.
    pub fn image(&self, alloc: Global, pick: &[bool], fill: u8) -> Result<MemoryDisk, OutOfMemory>
        ensures content { IfOk result (λ d. d ≡ new_disk (image_of pick.now fill self.now)) }
        ensures is_image { IfOk result (λ d. IsImage self.now.start self.now.changes (reads_of d)) }
    {
        let image = self.picked(alloc, pick, fill)?;
        let disk = MemoryDisk::new(alloc, &image, &[], None)?;
        Ok(disk)
    }

    /// The bytes of that image.
    fn picked(&self, alloc: Global, pick: &[bool], fill: u8) -> Result<Vec<u8>, OutOfMemory>
        ensures { IfOk result (λ v. v.items ≡ image_of pick.now fill self.now) }
    {
        let mut developing = Developing {
            read: Vec::from_slice(alloc, &self.start)?,
            image: Vec::from_slice(alloc, &self.start)?,
            number: 0,
        };
        for change in &self.changes {
            developing.follow(alloc, change, pick, fill)?;
        }
        Ok(developing.image)
    }

    /// Whether the next call is one that fails.
    fn fails_next(&self) -> bool
        ensures { IsTrue result ↔ FailsNext self.now.habits }
    {
        self.fails.contains(&self.calls) || has_come(self.stop, self.calls)
    }

    /// Counts a call, and says whether it is one that fails.
    fn begin(&mut self) -> Result<(), Failed>
        ensures start { self.new.start ≡ self.old.start }
        ensures changes { self.new.changes ≡ self.old.changes }
        ensures cause { HasCause self.old.habits.faults self.new.habits.faults result }
        ensures fails { IsErr result ↔ FailsNext self.old.habits }
        ensures habits { self.new.habits ≡ habits_after result self.old.habits }
    {
        let fails = self.fails_next();
        self.calls = self.calls.saturating_add(1);
        if fails {
            self.faults = self.faults.saturating_add(1);
            return Err(Failed);
        }
        Ok(())
    }

    /// Counts a fault for want of memory.
    fn refused(&mut self) -> Failed
        ensures start { self.new.start ≡ self.old.start }
        ensures changes { self.new.changes ≡ self.old.changes }
        ensures later { self.old.habits.faults ≤ self.new.habits.faults }
        ensures risen { Rises self.old.habits.faults self.new.habits.faults }
        ensures habits { self.new.habits ≡ record self.old.habits { faults = counted self.old.habits.faults } }
    {
        self.faults = self.faults.saturating_add(1);
        Failed
    }

    /// Keeps a sync; where memory is refused nothing changes.
    fn note_sync(&mut self) -> Result<(), OutOfMemory>
        ensures start { self.new.start ≡ self.old.start }
        ensures habits { self.new.habits ≡ self.old.habits }
        ensures ok { OnOk result (self.new.changes ≡ self.old.changes ++ Change.Sync ∷ []) }
        ensures err { OnErr result (self.new.changes ≡ self.old.changes) }
    {
        add(&mut self.changes, Change::Sync)
    }

    /// Keeps a write that failed; where memory is refused nothing changes.
    fn note_lost(&mut self, at: u64, piece: &[u8]) -> Result<(), OutOfMemory>
        ensures start { self.new.start ≡ self.old.start }
        ensures habits { self.new.habits ≡ self.old.habits }
        ensures ok { OnOk result (self.new.changes ≡ self.old.changes ++ Change.Write at piece.now false ∷ []) }
        ensures err { OnErr result (self.new.changes ≡ self.old.changes) }
    {
        let piece = Sequence::from(Vec::from_slice(*self.bytes.allocator(), piece)?);
        add(
            &mut self.changes,
            Change::Write {
                at,
                piece,
                done: false,
            },
        )
    }

    /// Keeps a write; where memory is refused nothing changes.
    fn note_write(&mut self, at: u64, piece: &[u8]) -> Result<(), OutOfMemory>
        ensures start { self.new.start ≡ self.old.start }
        ensures habits { self.new.habits ≡ self.old.habits }
        ensures ok { OnOk result (self.new.changes ≡ self.old.changes ++ Change.Write at piece.now true ∷ []) }
        ensures err { OnErr result (self.new.changes ≡ self.old.changes) }
    {
        let kept = Sequence::from(Vec::from_slice(*self.bytes.allocator(), piece)?);
        self.changes.reserve(1)?;
        overwrite(&mut self.bytes, at, piece)?;
        add_within(
            &mut self.changes,
            Change::Write {
                at,
                piece: kept,
                done: true,
            },
        );
        Ok(())
    }
}

/// Whether the call from which on all fail has come.
fn has_come(stop: Option<u64>, call: u64) -> bool
    ensures { IsTrue result ↔ HasCome stop call }
{
    match stop {
        Some(stop) => stop <= call,
        None => false,
    }
}

/// A disk while one of its images is made: what a read gives, the image, and the number of writes
/// since the last sync.
#[derive(Drop)]
struct Developing {
    read: Vec<u8>,
    image: Vec<u8>,
    number: usize,
}

impl Developing {
    ghost use Rattle.day_journal.specs.declared.memory_disk.Change.{Change};
    ghost use Rattle.day_journal.specs.MemoryDisks.{picked};

    /// Follows one change.
    fn follow(
        &mut self,
        alloc: Global,
        change: &Change,
        pick: &[bool],
        fill: u8,
    ) -> Result<(), OutOfMemory>
        requires { self.old.number + 1 < 2 ^ 64 }
        ensures number { self.new.number ≤ self.old.number + 1 }
        ensures same { OnOk result ((changes : List Change)
            → picked pick.now fill self.old.number self.old.read.items self.old.image.items (change.now ∷ changes)
            ≡ picked pick.now fill self.new.number self.new.read.items self.new.image.items changes) }
    {
        match change {
            Change::Write { at, piece, done } => {
                let is_there = pick.get(self.number).is_some_and(|&pick| pick);
                let shown = shown(alloc, is_there, piece.as_slice(), fill)?;
                overwrite(&mut self.image, *at, &shown)?;
                write_where(*done, &mut self.read, *at, piece.as_slice())?;
                self.number += 1;
            }
            Change::Sync => {
                self.image.clear();
                self.image.extend_from_slice(&self.read)?;
                self.number = 0;
            }
        }
        Ok(())
    }
}

/// The piece, or as many bytes that are the fill.
fn shown(alloc: Global, is_there: bool, piece: &[u8], fill: u8) -> Result<Vec<u8>, OutOfMemory>
    ensures { IfOk result (λ v. v.items ≡ (if is_there then piece.now else replicate (length piece.now) fill)) }
{
    if is_there {
        Ok(Vec::from_slice(alloc, piece)?)
    } else {
        Ok(vec![in alloc; fill; piece.len()]?)
    }
}

/// Puts a piece into a file where it was done.
fn write_where(done: bool, bytes: &mut Vec<u8>, at: u64, piece: &[u8]) -> Result<(), OutOfMemory>
    ensures { OnOk result (bytes.new.items ≡ (if done then written at piece.now bytes.old.items else bytes.old.items)) }
{
    if done {
        overwrite(bytes, at, piece)?;
    }
    Ok(())
}

/// Adds a change; where memory is refused none is added.
fn add(changes: &mut Vec<Change>, change: Change) -> Result<(), OutOfMemory>
    ensures ok { OnOk result (changes.new.items ≡ changes.old.items ++ change ∷ []) }
    ensures err { OnErr result (changes.new.items ≡ changes.old.items) }
{
    changes.reserve(1)?;
    add_within(changes, change);
    Ok(())
}

/// Adds a change without memory.
fn add_within(changes: &mut Vec<Change>, change: Change)
    requires { vec_len changes.old < vec_capacity changes.old }
    ensures { changes.new.items ≡ changes.old.items ++ change ∷ [] }
{
    let pushed = changes.push(change);
    prove!(pushed.is_ok());
}

impl Disk for MemoryDisk {
    ghost use Rattle.std.specs.Prelude.{Some, length, ⊤};
    ghost use Rattle.day_journal.specs.Disks.{AsRead, Elapses, Follows, Torn, Within};
    ghost use Rattle.day_journal.specs.MemoryDisks.{FailsNext, MemoryDiskState, habits_after, images_of, left_of, moment_of, reads_of};
    ghost use Rattle.day_journal.specs.MemoryDiskLaws.{read_is_image, image_is_left, left_is_image};

    ghost faults = { λ d. d.habits.faults };

    ghost reads = { λ d. Some (reads_of d) };

    ghost may_leave = { images_of };

    ghost moment = { moment_of };

    ghost left_since = { left_of };

    ghost lasts = { λ _ _. ⊤ };

    ghost lasts_same = { λ _. record {} };

    ghost lasts_on = { λ _ _ _ _ _. record {} };

    ghost read_is_left = { λ d. read_is_image d.start d.changes };

    ghost counts_now = { λ d. image_is_left d.start d.changes };

    ghost only_now = { λ d. left_is_image d.start d.changes };

    fn size(&mut self) -> Result<u64, Failed>
        ensures count { IfOk result (λ n. n ≡ length (reads_of self.old)) }
        ensures same { Some (reads_of self.new) ≡ Some (reads_of self.old) }
        ensures crash { Within (images_of self.old) (images_of self.new) }
        ensures time { Elapses (moment_of self.old) (moment_of self.new) (left_of self.old) (left_of self.new) (images_of self.new) }
        ensures lasts { ⊤ }
        ensures cause { HasCause self.old.habits.faults self.new.habits.faults result }
        ensures fails { IsErr result ↔ FailsNext self.old.habits }
        ensures habits { self.new.habits ≡ habits_after result self.old.habits }
    {
        self.begin()?;
        Ok(self.bytes.len() as u64)
    }

    fn read(&mut self, at: u64, out: &mut [u8]) -> Result<usize, Failed>
        ensures count { IfOk result (λ n. n ≤ length out.old) }
        ensures shown { IfOk result (λ n. Shows (reads_of self.old) at n out.new) }
        ensures same { Some (reads_of self.new) ≡ Some (reads_of self.old) }
        ensures crash { Within (images_of self.old) (images_of self.new) }
        ensures time { Elapses (moment_of self.old) (moment_of self.new) (left_of self.old) (left_of self.new) (images_of self.new) }
        ensures lasts { ⊤ }
        ensures cause { HasCause self.old.habits.faults self.new.habits.faults result }
        ensures fails { IsErr result ↔ FailsNext self.old.habits }
        ensures habits { self.new.habits ≡ habits_after result self.old.habits }
    {
        self.begin()?;
        Ok(copy_from(&self.bytes, at, out))
    }

    fn write_at(&mut self, at: u64, piece: &[u8]) -> Result<(), Failed>
        ensures written { OnOk result (Some (reads_of self.new) ≡ Some (written at piece.now (reads_of self.old))) }
        ensures told { true ≡ true }
        ensures crash { Follows (Torn at (length piece.now)) (images_of self.old) (images_of self.new) }
        ensures time { Elapses (moment_of self.old) (moment_of self.new) (left_of self.old) (left_of self.new) (images_of self.new) }
        ensures lasts { ⊤ }
        ensures cause { HasCause self.old.habits.faults self.new.habits.faults result }
        ensures fails { FailsNext self.old.habits → IsErr result }
        ensures habits { self.new.habits ≡ habits_after result self.old.habits }
    {
        match self.begin() {
            Ok(()) => match self.note_write(at, piece) {
                Ok(()) => Ok(()),
                Err(_) => Err(self.refused()),
            },
            Err(failed) => {
                let _ = self.note_lost(at, piece);
                Err(failed)
            }
        }
    }

    fn sync(&mut self) -> Result<(), Failed>
        ensures durable { OnOk result (AsRead (Some (reads_of self.new)) (images_of self.new)) }
        ensures same { OnOk result (Some (reads_of self.new) ≡ Some (reads_of self.old)) }
        ensures told { true ≡ true }
        ensures crash { Within (images_of self.old) (images_of self.new) }
        ensures time { Elapses (moment_of self.old) (moment_of self.new) (left_of self.old) (left_of self.new) (images_of self.new) }
        ensures lasts { ⊤ }
        ensures cause { HasCause self.old.habits.faults self.new.habits.faults result }
        ensures fails { FailsNext self.old.habits → IsErr result }
        ensures habits { self.new.habits ≡ habits_after result self.old.habits }
    {
        self.begin()?;
        match self.note_sync() {
            Ok(()) => Ok(()),
            Err(_) => Err(self.refused()),
        }
    }
}
