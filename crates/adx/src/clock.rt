//! The system's clock.
ghost use Rattle.std.specs.Prelude.{◌<◌, ◌^◌};

use exchange_messages::Clock;
use std::time::{SystemTime, UNIX_EPOCH};

/// The greatest moment that a clock may give.
const LAST: u64 = (1 << 63) - 1;

/// The system's clock, in seconds since the beginning of 1970. It reports no moment, since no contract can know one. Where the
/// system has none it gives 0.
#[derive(Clone, Copy)]
pub(crate) struct SystemClock<'a> {
    rt: &'a HostRuntime,
}

impl<'a> SystemClock<'a> {
    /// The clock of this runtime's system.
    pub(crate) fn new(rt: &'a HostRuntime) -> SystemClock<'a> {
        SystemClock { rt }
    }
}

impl<'a> Clock for SystemClock<'a> {
    ghost use Rattle.std.specs.Prelude.{None};

    ghost moment = { λ _. None };

    fn now(&self) -> u64
        ensures within { result < 2 ^ 63 }
    {
        let Ok(now) = SystemTime::now(self.rt) else {
            return 0;
        };
        match now.duration_since(UNIX_EPOCH) {
            Ok(since) => since.as_secs().min(LAST),
            Err(_) => 0,
        }
    }
}
