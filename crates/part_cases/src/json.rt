//! JSON texts: how they are written again, or the first fault.
use crate::readers::{done, push_text};
use adx_json::{Json, read, write};
use adx_units::OutOfMemory;
use std::alloc::Global;
use std::fmt::Write;

/// Adds how a text is written again, or its fault.
pub(crate) fn push_tree(out: &mut String, alloc: Global, bytes: &[u8]) -> Result<(), OutOfMemory> {
    match read(alloc, bytes) {
        Ok(tree) => push_text(out, write(alloc, &tree)),
        Err(fault) => done(write!(out, "{fault:?}")),
    }
}

/// The tree of a text; want of memory where it has none.
pub(crate) fn tree_of(alloc: Global, bytes: &[u8]) -> Result<Json, OutOfMemory> {
    match read(alloc, bytes) {
        Ok(tree) => Ok(tree),
        Err(_) => Err(OutOfMemory),
    }
}
