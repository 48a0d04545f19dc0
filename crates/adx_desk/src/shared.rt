//! A desk as a value that threads share: its history, its faults, and what it was opened with.
use crate::desk::Desk;
use crate::turn::Turn;
use adx_units::{Counted, Sequence, Units};
use day_journal::Disk;
use day_rules::{DayLimits, Entry};

/// What a desk was opened with, which no call changes: the roster's campaigns and limits, and what is known of the disk
/// from the opening.
#[derive(Debug, Drop)]
pub struct OpenedWith {
    /// The budget of each of the roster's campaigns.
    pub budgets: Sequence<Units>,
    /// How much the day may take.
    pub limits: DayLimits,
    /// The digest of the roster's day and campaigns.
    pub digest: [u8; 32],
    /// How often the disk had failed after the opening.
    pub faults: u64,
    /// Whether the disk reported what it read.
    pub tells: bool,
}

impl<D: Disk> Counted for Desk<D> {
    ghost use Rattle.day_rules.specs.DayState.{IsDay};
    ghost use Rattle.adx_desk.specs.Shared.{IsTurnAt, is_disk_fault, opened_with, terms_in};

    type Item = Entry;

    type Fixed = OpenedWith;

    type Turn = Turn;

    ghost items = { λ o. o.desk.history };

    ghost fault_count = { λ o. o.desk.faults };

    ghost fixed = { λ o. opened_with o.desk.terms o.since };

    ghost adds = { λ t. t.entry };

    ghost is_fault = { λ t. is_disk_fault t.ended };

    ghost legal = { λ opened history. IsDay (terms_in opened).day history };

    ghost right = { λ opened history turn. IsTurnAt (terms_in opened) history turn };

    fn count(&self) -> u64 {
        Desk::count(self)
    }

    fn faults(&self) -> u64 {
        Desk::faults(self)
    }

    fn is_legal(&self) {
        let _ = self.entries();
    }
}
