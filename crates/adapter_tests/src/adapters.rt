//! The adapters over what std has open: a real file as a disk, and two sockets as a sink and a source.

use adx_io::{Sink, Source, StdSink, StdSource, put_all};
use day_journal::{Disk, FileDisk};
use std::fs::{File, OpenOptions};
use std::os::unix::net::UnixStream;
use std::{env, fs, io};

/// Writes a piece at a place, syncs it, and tells whether the disk has the size, and from a place on the bytes.
fn keeps<D: Disk>(disk: &mut D, at: u64, piece: &[u8], size: u64, shown: &[u8]) -> bool {
    let mut out = [0u8; 16];
    let written = disk.write_at(at, piece).is_ok() && disk.sync().is_ok();
    let has_size = disk.size() == Ok(size);
    match disk.read(2, &mut out) {
        Ok(count) => written && has_size && out.get(..count) == Some(shown),
        Err(_) => false,
    }
}

/// A new file for reading and writing.
fn new_file(rt: &HostRuntime, path: &str) -> io::Result<File> {
    OpenOptions::new()
        .read(true)
        .write(true)
        .create(true)
        .truncate(true)
        .open(rt, path)
}

/// Tells whether a file as a disk has what was written to it, and whether it is there when it is opened again.
fn is_kept(rt: &HostRuntime) -> io::Result<bool> {
    let path = env::temp_dir(rt)?.join(rt.alloc(), "adx-adapters.file")?;
    let mut disk = FileDisk::new(new_file(rt, path.as_str())?);
    let first = disk.size() == Ok(0)
        && keeps(&mut disk, 3, b"abc", 6, b"\0abc")
        && keeps(&mut disk, 4, b"X", 6, b"\0aXc")
        && keeps(&mut disk, 6, b"", 6, b"\0aXc")
        && keeps(&mut disk, 6, b"0123456789abcdef", 22, b"\0aXc0123456789ab");
    let mut again = FileDisk::new(File::open(rt, path.as_str())?);
    let mut out = [0u8; 4];
    let there = again.read(3, &mut out) == Ok(4) && out == *b"aXc0";
    // What is open for reading alone can't be written.
    let refused = again.write_at(0, b"a").is_err();
    fs::remove_file(rt, path.as_str())?;
    Ok(first && there && refused)
}

#[test]
fn a_file_keeps_what_is_written(rt: HostRuntime) {
    assert_eq!(rt; is_kept(&rt).ok(), Some(true));
}

/// Tells whether the source gives these bytes next.
fn gives<S: Source>(source: &mut S, bytes: &[u8]) -> bool {
    let mut out = [0u8; 16];
    match source.take(&mut out) {
        Ok(count) => out.get(..count) == Some(bytes),
        Err(_) => false,
    }
}

/// Tells whether what is put into one socket is taken from the other, up to the end of it.
fn is_carried(rt: &HostRuntime) -> io::Result<bool> {
    let (near, far) = UnixStream::pair(rt)?;
    let mut sink = StdSink::new(near);
    let mut source = StdSource::new(far);
    let first = put_all(&mut sink, b"to be").is_ok() && gives(&mut source, b"to be");
    let second = sink.put(b"told") == Ok(4) && gives(&mut source, b"told");
    sink.get_ref().shutdown(std::net::Shutdown::Write)?;
    let ended = gives(&mut source, b"") && sink.put(b"more").is_err();
    Ok(first && second && ended)
}

#[test]
fn sockets_carry_what_is_put(rt: HostRuntime) {
    assert_eq!(rt; is_carried(&rt).ok(), Some(true));
}
