//! An opened file of std as a disk.
ghost use Rattle.std.specs.Prelude.{◌≡◌, ◌≤◌, length, IfSome};
ghost use Rattle.day_journal.specs.FileDisks.{disk_faults, file_of};

use crate::disk::Disk;
use adx_io::Failed;
use std::fs::OpenFile;
use std::os::unix::fs::FileExt;

/// An opened file of std as a disk. It tells no bytes, since no contract can know what a real file
/// holds or what a crash leaves of it.
#[derive(Drop)]
pub struct FileDisk<F> {
    file: F,
    faults: u64,
}

impl<F> FileDisk<F> {
    /// The disk over a file that is open for reading and writing.
    pub fn new(file: F) -> FileDisk<F>
        ensures begins { disk_faults result ≡ 0 }
        ensures file { file_of result ≡ file }
    {
        FileDisk { file, faults: 0 }
    }
}

impl<F: OpenFile + FileExt> Disk for FileDisk<F> {
    ghost use Rattle.std.specs.Prelude.{None, ⊤};
    ghost use Rattle.day_journal.specs.FileDisks.{disk_faults};

    ghost faults = { disk_faults };

    ghost reads = { λ _. None };

    ghost may_leave = { λ _ _. ⊥ };

    ghost moment = { λ _. 0 };

    ghost left_since = { λ _ _ _. ⊥ };

    ghost lasts = { λ _ _. ⊤ };

    ghost lasts_same = { λ _. record {} };

    ghost lasts_on = { λ _ _ _ _ _. record {} };

    ghost read_is_left = { λ d file told. absurd (cc (told)) };

    ghost counts_now = { λ d t c le now. now };

    ghost only_now = { λ d c left. left };

    fn size(&mut self) -> Result<u64, Failed> {
        match self.file.metadata() {
            Ok(about) => Ok(about.len()),
            Err(_) => {
                self.faults = self.faults.saturating_add(1);
                Err(Failed)
            }
        }
    }

    fn read(&mut self, at: u64, out: &mut [u8]) -> Result<usize, Failed> {
        match read_up_to(&self.file, at, out) {
            Some(count) => Ok(count),
            None => {
                self.faults = self.faults.saturating_add(1);
                Err(Failed)
            }
        }
    }

    fn write_at(&mut self, at: u64, piece: &[u8]) -> Result<(), Failed> {
        match self.file.write_all_at(piece, at) {
            Ok(()) => Ok(()),
            Err(_) => {
                self.faults = self.faults.saturating_add(1);
                Err(Failed)
            }
        }
    }

    fn sync(&mut self) -> Result<(), Failed> {
        match self.file.sync_data() {
            Ok(()) => Ok(()),
            Err(_) => {
                self.faults = self.faults.saturating_add(1);
                Err(Failed)
            }
        }
    }
}

/// Reads until `out` is full or the file ends; None where a read failed.
fn read_up_to<F: FileExt>(file: &F, at: u64, out: &mut [u8]) -> Option<usize>
    ensures count { IfSome result (λ n. n ≤ length out.old) }
{
    let mut count = 0;
    while count < out.len() {
        match file.read_at(&mut out[count..], at.checked_add(count as u64)?) {
            Ok(0) => return Some(count),
            Ok(more) => count += more,
            Err(_) => return None,
        }
    }
    Some(count)
}
