//! The meters, as running numbers.
ghost use Rattle.std.specs.Prelude.{◌≡◌, fold};
ghost use Rattle.day_rules.specs.Steps.{after, no_meters, InRange, StayInRange};

use crate::step::{MeterStep, StepKind};

/// What an operator reads of a day.
#[derive(Clone, Copy, Debug, PartialEq, Eq)]
pub struct Meters {
    /// The entries of the history.
    pub entries: u64,
    pub asks: u64,
    /// The awards that asks made.
    pub awards: u64,
    pub wins: u64,
    pub bills: u64,
    pub losses: u64,
    /// The awards that a moment ended.
    pub expired: u64,
    /// The charges of the awards without an end, in units.
    pub reserved: u64,
    /// The charges of the awards that were billed, in units.
    pub billed: u64,
}

impl Meters {
    /// The meters of a day without entries.
    pub const fn new() -> Meters
        ensures { result ≡ no_meters }
    {
        Meters {
            entries: 0,
            asks: 0,
            awards: 0,
            wins: 0,
            bills: 0,
            losses: 0,
            expired: 0,
            reserved: 0,
            billed: 0,
        }
    }

    /// The meters after one more entry.
    pub fn after(self, step: &MeterStep) -> Meters
        requires range { InRange (after self step.now) }
        ensures meters { result ≡ after self step.now }
    {
        let entries = self.entries + 1;
        match step.kind {
            StepKind::Ask => Meters {
                entries,
                asks: self.asks + 1,
                awards: self.awards + step.count,
                reserved: self.reserved + step.money,
                ..self
            },
            StepKind::Win => Meters {
                entries,
                wins: self.wins + 1,
                ..self
            },
            StepKind::Bill => Meters {
                entries,
                bills: self.bills + 1,
                reserved: self.reserved.saturating_sub(step.money),
                billed: self.billed + step.money,
                ..self
            },
            StepKind::Loss => Meters {
                entries,
                losses: self.losses + 1,
                reserved: self.reserved.saturating_sub(step.money),
                ..self
            },
            StepKind::Expire => Meters {
                entries,
                expired: self.expired + step.count,
                reserved: self.reserved.saturating_sub(step.money),
                ..self
            },
            StepKind::Budget => Meters { entries, ..self },
        }
    }
}

/// The meters after further steps.
pub fn folded(from: Meters, steps: &[MeterStep]) -> Meters
    requires range { StayInRange from steps.now }
    ensures meters { result ≡ fold after from steps.now }
{
    let mut meters = from;
    for step in steps {
        meters = meters.after(step);
    }
    meters
}
