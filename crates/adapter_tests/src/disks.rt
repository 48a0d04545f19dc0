//! A disk in memory that keeps its first bytes alone: what is read of it while it is short, and when it is longer.
use adx_io::Failed;
use day_journal::{Disk, WriteOnlyDisk};
use std::alloc::Global;

/// How many bytes such a disk keeps.
const KEPT: usize = 4_096;

/// The first bytes of a disk, as many as there is room for, and how many they are.
fn front_of(disk: &mut WriteOnlyDisk) -> Result<([u8; 8], usize), Failed> {
    let mut front = [9; 8];
    let count = disk.read(0, &mut front)?;
    Ok((front, count))
}

/// A disk on which two bytes were written behind two that weren't, and then one over the first.
fn short(alloc: Global) -> Result<WriteOnlyDisk, Failed> {
    let mut disk = WriteOnlyDisk::new(alloc);
    disk.write_at(2, b"bc")?;
    disk.sync()?;
    disk.write_at(0, b"a")?;
    Ok(disk)
}

/// Its size, and its first bytes.
fn seen(alloc: Global) -> Result<(u64, ([u8; 8], usize)), Failed> {
    let mut disk = short(alloc)?;
    let size = disk.size()?;
    Ok((size, front_of(&mut disk)?))
}

#[test]
fn a_short_file_is_read(rt: HostRuntime) {
    assert_eq!(rt;
        seen(rt.alloc()),
        Ok((4, ([b'a', 0, b'b', b'c', 9, 9, 9, 9], 4)))
    );
}

/// The size of a disk that has as many bytes as it keeps, and of one with a byte more, each with how a read of it goes.
fn at_the_limit(alloc: Global) -> Result<[(u64, bool); 2], Failed> {
    let mut disk = short(alloc)?;
    disk.write_at(4, &[7; KEPT - 4])?;
    let kept = (disk.size()?, front_of(&mut disk).is_ok());
    disk.write_at(KEPT as u64, b"d")?;
    Ok([kept, (disk.size()?, front_of(&mut disk).is_ok())])
}

#[test]
fn a_longer_file_is_not_read(rt: HostRuntime) {
    assert_eq!(rt;
        at_the_limit(rt.alloc()),
        Ok([(4_096, true), (4_097, false)])
    );
}

/// Whether a write at a place of a short disk is taken, and the size behind it.
fn written_at(alloc: Global, at: u64) -> Result<(bool, u64), Failed> {
    let mut disk = short(alloc)?;
    let taken = disk.write_at(at, b"de").is_ok();
    Ok((taken, disk.size()?))
}

#[test]
fn a_write_past_all_places_is_refused(rt: HostRuntime) {
    assert_eq!(rt; written_at(rt.alloc(), 3), Ok((true, 5)));
    assert_eq!(rt; written_at(rt.alloc(), u64::MAX - 2), Ok((true, u64::MAX)));
    assert_eq!(rt; written_at(rt.alloc(), u64::MAX - 1), Ok((false, 4)));
}
