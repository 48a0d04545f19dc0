//! A disk, and a journal on it: a list of payloads in a file that a crash at any moment leaves whole.
//!
//! A `Disk` tells what a read gives and what a crash may leave; a fault is answered only where its own count of faults
//! rose. `FileDisk` is one over a file and tells nothing; `MemoryDisk` tells all and fails by a plan; `ByteDisk` is its
//! bytes in memory.
//!
//! A payload that was acknowledged is there after every crash; one that wasn't is there whole or not
//! at all. `Opening` reads the payloads of a file, and makes a new journal of a file that has none;
//! `Journal` adds payloads, each by two writes and two syncs. The file's head says in which of two formats
//! its payloads are spelled; a new journal has the later one. Uses `adx_io`.
#![tactic(auto)]

mod byte_disk;
mod disk;
mod fault;
mod file_bytes;
mod file_disk;
mod journal;
mod laws;
mod making;
mod memory_disk;
mod opening;
mod place;
mod start;
mod steps;
mod window;
mod write_only_disk;

pub use byte_disk::ByteDisk;
pub use disk::Disk;
pub use fault::{AppendFault, OpeningFault};
pub use file_disk::FileDisk;
pub use journal::Journal;
pub use laws::{faults_exclude, one_place, stands_once};
pub use memory_disk::{Change, MemoryDisk};
pub use opening::Opening;
pub use start::NEW_FORMAT;
pub use write_only_disk::WriteOnlyDisk;
