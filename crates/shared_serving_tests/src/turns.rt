//! Two connections on one shared desk, whose messages come in every order.

use crate::alike::are_alike;
use crate::serving::{Course, saying};
use adx_units::OutOfMemory;
use std::alloc::{AllocError, Global};
use std::marker::Sync;
use std::sync::Wait;
use std::thread::Threads;

/// The messages of the first connection, and of the second one, which is long after.
const OURS: [&[u8]; 4] = [b"a", b"b", b"c", b"d"];

const THEIRS: [&[u8]; 4] = [b"A", b"B", b"C", b"D"];

/// The messages of both in the order of a number's bits, from the lowest on: where a bit is 0 the next of the first
/// connection, else of the second.
fn merged(alloc: Global, order: u32) -> Result<Vec<Course<'static>>, AllocError> {
    let mut ours = OURS.iter();
    let mut theirs = THEIRS.iter();
    let mut out = Vec::new(alloc);
    let mut bits = order;
    for _ in 0..8 {
        let is_late = bits % 2 == 1;
        let next = if is_late { theirs.next() } else { ours.next() };
        bits = bits / 2;
        match next {
            Some(messages) => out.push(saying(messages, is_late))?,
            None => {}
        }
    }
    Ok(out)
}

/// Whether two connections with four messages each are replied in this order as one desk replies.
fn is_merged<R: Wait + Threads + Sync>(
    rt: &R,
    alloc: Global,
    order: u32,
) -> Result<bool, OutOfMemory> {
    let courses = merged(alloc, order)?;
    are_alike(rt, alloc, &[], courses.as_slice())
}

#[test]
fn every_order_of_two_connections(rt: HostRuntime) {
    for order in 0..256_u32 {
        if order.count_ones() == 4 {
            assert_eq!(rt; is_merged(&rt, rt.alloc(), order), Ok(true), "{order}");
        }
    }
}
