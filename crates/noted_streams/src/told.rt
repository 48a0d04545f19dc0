//! The place of the last error, which threads may share.

use std::io;
use std::sync::atomic::{AtomicI64, Ordering};

/// Stands for no error; no number of an error of the system's is so small.
const NONE: i64 = i64::MIN;

/// The last error that the system reported, if it reported one, by the system's number of it. Threads may share it.
#[derive(Drop)]
pub struct Told {
    number: AtomicI64,
}

impl Told {
    /// Nothing was reported yet.
    pub fn new() -> Told {
        Told {
            number: AtomicI64::new(NONE),
        }
    }

    /// Keeps an error; one without a number of the system's isn't kept.
    pub(crate) fn keep(&self, error: &io::Error) {
        if let Some(number) = error.raw_os_error() {
            self.number.store(i64::from(number), Ordering::SeqCst);
        }
    }

    /// The last error that was kept.
    pub fn last(&self) -> Option<io::Error> {
        match i32::try_from(self.number.load(Ordering::SeqCst)) {
            Ok(number) => Some(io::Error::from_raw_os_error(number)),
            Err(_) => None,
        }
    }
}
