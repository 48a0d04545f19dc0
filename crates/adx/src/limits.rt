//! The limits that the system sets this process.

use std::fs;

/// The system's list of them.
const LIMITS: &str = "/proc/self/limits";

/// What the line of descriptors begins with.
const DESCRIPTORS: &str = "Max open files";

/// How many descriptors this process may have; None where the system doesn't say, or sets no limit.
pub(crate) fn descriptors(rt: &HostRuntime) -> Option<u64> {
    let limits = fs::read_to_string(rt, LIMITS).ok()?;
    for line in limits.lines() {
        if let Some(rest) = line.strip_prefix(DESCRIPTORS) {
            return rest.split_whitespace().next()?.parse::<u64>().ok();
        }
    }
    None
}
