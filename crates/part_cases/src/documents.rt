//! Records and certificates that are read and written again.
use crate::readers::done;
use adx_units::OutOfMemory;
use bid_record::{read_record, write_record};
use dual_cert::{read_cert, write_cert};
use std::alloc::Global;
use std::fmt::Write;

/// Adds whether a document is written as it was read, and how many bytes that were.
fn push_again(out: &mut String, bytes: &[u8], again: &[u8], len: usize) -> Result<(), OutOfMemory> {
    if bytes.get(..len) == Some(again) {
        done(write!(out, "again {len}"))
    } else {
        Ok(out.push_str("otherwise")?)
    }
}

/// Adds what is read of a record, or its fault.
pub(crate) fn push_record_said(
    out: &mut String,
    alloc: Global,
    bytes: &[u8],
) -> Result<(), OutOfMemory> {
    match read_record(alloc, bytes) {
        Ok((record, len)) => {
            let again = write_record(alloc, &record)?;
            push_again(out, bytes, again.as_str().as_bytes(), len)
        }
        Err(fault) => done(write!(out, "{fault:?}")),
    }
}

/// Adds what is read of a certificate, or its fault.
pub(crate) fn push_cert_said(
    out: &mut String,
    alloc: Global,
    bytes: &[u8],
) -> Result<(), OutOfMemory> {
    match read_cert(alloc, bytes) {
        Ok(cert) => {
            let again = write_cert(alloc, &cert)?;
            push_again(out, bytes, again.as_str().as_bytes(), bytes.len())
        }
        Err(fault) => done(write!(out, "{fault:?}")),
    }
}
