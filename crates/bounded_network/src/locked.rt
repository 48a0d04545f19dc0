//! Locks that are held for a moment.

use std::hint::spin_loop;
use std::sync::{Mutex, MutexGuard};

/// How often a lock is tried: a thousandth of a second in all, or so.
const MOST_TRIES: u32 = 50_000;

/// What is kept under a lock that is only ever held for a moment; None where it isn't had in time.
pub(crate) fn locked<T>(mutex: &Mutex<T>) -> Option<MutexGuard<'_, T>> {
    for _try in 0..MOST_TRIES {
        if let Some(guard) = mutex.try_lock() {
            return Some(guard);
        }
        spin_loop();
    }
    None
}
