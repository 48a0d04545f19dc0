//! A source in memory.
ghost use Rattle.std.specs.Prelude.{◌≡◌, ◌≤◌, ◌==◌, ℕ, [], length, min, take, IfOk, if◌then◌else◌};

use crate::failed::Failed;
use crate::line_buffer::copy_front;
use crate::source::Source;
use adx_units::OutOfMemory;
use std::alloc::Global;
use std::marker::Model;

/// A source over bytes in memory that gives a few bytes at a time and fails by a list. It reports all.
#[derive(Debug, Drop)]
pub struct MemorySource {
    bytes: Vec<u8>,
    at: usize,
    step: usize,
    fails: Vec<u64>,
    calls: u64,
    faults: u64,
}

impl Model for MemorySource {
    ghost use Rattle.std.specs.Prelude.{◌≤◌, take, drop, vec_len};
    ghost use Rattle.adx_io.specs.Fakes.{SourceState};

    ghost Value = { SourceState };

    ghost view = { λ s. record {
      tape = record { taken = take s.at s.bytes.items; left = drop s.at s.bytes.items };
      habits = record { step = s.step; fails = s.fails.items; calls = s.calls; faults = s.faults };
    } };

    ghost invariant = { λ s. s.at ≤ vec_len s.bytes };
}

impl MemorySource {
    /// A source of these bytes that gives at most `step` bytes at each call (0: as many as asked), and
    /// whose calls with a number in `fails`, from 0, fail.
    pub fn new(
        alloc: Global,
        bytes: &[u8],
        step: usize,
        fails: &[u64],
    ) -> Result<MemorySource, OutOfMemory>
        ensures { IfOk result (λ s. s ≡ record {
          tape = record { taken = []; left = bytes.now };
          habits = record { step = step; fails = fails.now; calls = 0; faults = 0 };
        }) }
    {
        Ok(MemorySource {
            bytes: Vec::from_slice(alloc, bytes)?,
            at: 0,
            step,
            fails: Vec::from_slice(alloc, fails)?,
            calls: 0,
            faults: 0,
        })
    }
}

impl Source for MemorySource {
    ghost use Rattle.std.specs.Prelude.{◌≡◌, ◌≤◌, ◌++◌, [], length, min, take, drop, IfOk, OnErr, Ok, Err, Some, if◌then◌else◌};
    ghost use Rattle.adx_io.specs.Streams.{Moves, HasCause, own_place};
    ghost use Rattle.adx_io.specs.Fakes.{SourceState, fails_now, failure, moved_of, after_call, after_fault};

    ghost faults = { λ s. s.habits.faults };

    ghost tape = { λ s. Some s.tape };

    fn take(&mut self, out: &mut [u8]) -> Result<usize, Failed>
        ensures count { IfOk result (λ n. n ≤ length out.old) }
        ensures moved { Moves (Some self.old.tape) (Some self.new.tape) out.new result }
        ensures cause { HasCause self.old.habits.faults self.new.habits.faults result }
        ensures same { own_place ≡ own_place }
        ensures amount { result ≡ (if fails_now self.old.habits then failure else Ok
            (min (moved_of self.old.habits (length out.old)) (length self.old.tape.left))) }
        ensures habits { self.new.habits ≡ (if fails_now self.old.habits then after_fault self.old.habits else after_call self.old.habits) }
    {
        let call = self.calls;
        self.calls = call.saturating_add(1);
        if self.fails.contains(&call) {
            self.faults = self.faults.saturating_add(1);
            return Err(Failed);
        }
        let wanted = moved(self.step, out.len());
        let (_, left) = self.bytes.split_at(self.at);
        let count = wanted.min(left.len());
        copy_front(out, left, count);
        self.at += count;
        Ok(count)
    }
}

/// How many of so many bytes one call with this step moves.
pub(crate) fn moved(step: usize, len: usize) -> usize
    ensures { result ≡ (if step == 0 then len else min len step) }
{
    if step == 0 { len } else { len.min(step) }
}
