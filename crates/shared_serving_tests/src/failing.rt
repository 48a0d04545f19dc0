//! Connections on a shared desk over disks, sources and sinks that fail.

use crate::alike::are_alike;
use crate::serving::{Course, saying};

/// An ask, notices that are taken together, a change of a budget, another ask, and the books. They come twice: the second time
/// on a connection that is long after.
const MESSAGES: &[u8] = b"agebcfd";

/// The first call of the disk after the opening, and one after the last.
const FIRST: u64 = 14;

const LAST: u64 = 50;

#[test]
fn disks_fail(rt: HostRuntime) {
    for call in FIRST..LAST {
        // After a batch's fault its first notice alone meets the second one.
        for fails in [[call, call], [call, call + 1]] {
            let courses = [saying(MESSAGES, false), saying(MESSAGES, true)];
            assert_eq!(rt;
                are_alike(&rt, rt.alloc(), &fails, &courses),
                Ok(true),
                "{call}"
            );
        }
    }
}

#[test]
fn sources_and_sinks_fail(rt: HostRuntime) {
    for call in 0..24 {
        let fails = [call];
        let read = Course {
            step: 64,
            source_fails: &fails,
            ..saying(MESSAGES, false)
        };
        let write = Course {
            step: 64,
            sink_fails: &fails,
            ..saying(MESSAGES, false)
        };
        for course in [read, write] {
            let courses = [course, saying(MESSAGES, true)];
            assert_eq!(rt;
                are_alike(&rt, rt.alloc(), &[], &courses),
                Ok(true),
                "{call}"
            );
        }
    }
}
