//! The bytes of a file that were read and not yet passed.
ghost use Rattle.day_journal.specs.Disks.{Within};
ghost use Rattle.adx_io.specs.Streams.{HasCause, last_count};
ghost use Rattle.day_journal.specs.Openings.{HasPlace, IsWindow, OnlyReads, ReadsOn};
ghost use Rattle.std.specs.Prelude.{◌≡◌, ◌≤◌, ◌+◌, ◌-◌, ◌^◌, ◌<◌, ◌++◌, [], List, ℕ, Some, length, min, take, drop, replicate, IfOk, OnOk, OnErr};

use crate::disk::Disk;
use adx_io::Failed;
use adx_units::OutOfMemory;
use std::alloc::Global;
use std::marker::Model;

/// How many bytes are asked of a disk at once.
const CHUNK: usize = 262_144;

/// The next bytes of a file from a place on.
#[derive(Debug, Drop)]
pub(crate) struct Window {
    chunk: Vec<u8>,
    start: usize,
    end: usize,
    at: u64,
}

impl Model for Window {
    ghost use Rattle.std.specs.Prelude.{◌≡◌, ◌≤◌, take, drop, vec_len};
    ghost use Rattle.day_journal.specs.Openings.{WindowState};
    ghost use Rattle.day_journal.specs.declared.window.TheConstants.{CHUNK};

    ghost Value = { WindowState };

    ghost view = { λ w. record { at = w.at; bytes = drop w.start (take w.end w.chunk.items) } };

    ghost invariant = { λ w. (w.start ≤ w.end) × (w.end ≤ vec_len w.chunk) × (vec_len w.chunk ≡ CHUNK) };
}

impl Window {
    /// A window without bytes at a place.
    pub(crate) fn new(alloc: Global, at: u64) -> Result<Window, OutOfMemory>
        ensures { IfOk result (λ w. w ≡ record { at = at; bytes = [] }) }
    {
        Ok(Window {
            chunk: vec![in alloc; 0; CHUNK]?,
            start: 0,
            end: 0,
            at,
        })
    }

    /// The place of its first byte.
    pub(crate) fn at(&self) -> u64
        ensures { result ≡ self.now.at }
    {
        self.at
    }

    /// Its bytes.
    pub(crate) fn bytes(&self) -> &[u8]
        ensures { result.now ≡ self.now.bytes }
    {
        let (read, _) = self.chunk.split_at(self.end);
        let (_, bytes) = read.split_at(self.start);
        bytes
    }

    /// Reads on where it has fewer bytes than a gate and a length.
    pub(crate) fn fill<D: Disk>(&mut self, disk: &mut D) -> Result<(), Failed>
        ensures at { self.new.at ≡ self.old.at }
        ensures shown { OnOk result ((file : List ℕ) → D.reads disk.old ≡ Some file → IsWindow file self.old → HasPlace file self.new) }
        ensures only_reads { OnlyReads D.reads D.may_leave D.moment D.left_since disk.old disk.new }
        ensures lasts { D.lasts disk.old disk.new }
        ensures cause { HasCause (D.faults disk.old) (D.faults disk.new) result }
    {
        if self.end - self.start >= 5 {
            return Ok(());
        }
        to_front(&mut self.chunk, self.start, self.end);
        self.end -= self.start;
        self.start = 0;
        let count = read_behind(disk, self.at, &mut self.chunk, self.end)?;
        self.end += count;
        Ok(())
    }

    /// Passes so many of its bytes.
    pub(crate) fn pass(&mut self, count: usize)
        requires { count ≤ length self.old.bytes }
        ensures { self.new ≡ record { at = min (self.old.at + count) last_count; bytes = drop count self.old.bytes } }
    {
        self.start += count;
        self.at = self.at.saturating_add(count as u64);
    }

    /// Passes all of its bytes, and some that it hasn't.
    pub(crate) fn pass_all(&mut self, count: u64)
        ensures { self.new ≡ record { at = min (self.old.at + count) last_count; bytes = [] } }
    {
        self.start = self.end;
        self.at = self.at.saturating_add(count);
    }
}

/// Moves a range of bytes to the front.
fn to_front(chunk: &mut [u8], start: usize, end: usize)
    requires order { start ≤ end }
    requires within { end ≤ length chunk.old }
    ensures len { length chunk.new ≡ length chunk.old }
    ensures front { take (end - start) chunk.new ≡ drop start (take end chunk.old) }
{
    chunk.copy_within(start..end, 0);
}

/// Reads the bytes of a file from `at` and `len` more on, after the first `len` bytes of `out`.
pub(crate) fn read_behind<D: Disk>(
    disk: &mut D,
    at: u64,
    out: &mut [u8],
    len: usize,
) -> Result<usize, Failed>
    requires { len ≤ length out.old }
    ensures len { length out.new ≡ length out.old }
    ensures count { IfOk result (λ n. len + n ≤ length out.new) }
    ensures front { take len out.new ≡ take len out.old }
    ensures shown { IfOk result (λ n. (file : List ℕ) → D.reads disk.old ≡ Some file → ReadsOn file at len out.old n out.new) }
    ensures only_reads { OnlyReads D.reads D.may_leave D.moment D.left_since disk.old disk.new }
    ensures lasts { D.lasts disk.old disk.new }
    ensures cause { HasCause (D.faults disk.old) (D.faults disk.new) result }
{
    let place = at.saturating_add(len as u64);
    let count = disk.read(place, &mut out[len..])?;
    Ok(count)
}
