//! A list of numbers as a shared value, and the job that adds one to it.
ghost use Rattle.std.specs.Prelude.{◌≡◌, [], true, Some, IfOk};
ghost use Rattle.turnstile.specs.Passes.{IsOf};

use adx_units::{Counted, OutOfMemory};
use std::alloc::Global;
use turnstile::{Job, Pass, Turnstile};

/// A list of numbers, and how many jobs met a fault.
#[derive(Drop)]
pub struct Tally {
    pub items: Vec<u64>,
    pub faults: u64,
}

impl Counted for Tally {
    type Item = u64;

    type Fixed = ();

    type Turn = Outcome;

    ghost items = { λ t. t.items.items };

    ghost fault_count = { λ t. t.faults };

    ghost fixed = { λ _. tt };

    ghost adds = { λ o. o.added };

    ghost is_fault = { λ o. o.faulted };

    ghost legal = { λ _ _. Unit {0} };

    ghost right = { λ _ _ _. Unit {0} };

    fn count(&self) -> u64 {
        self.items.len() as u64
    }

    fn faults(&self) -> u64 {
        self.faults
    }

    fn is_legal(&self) {}
}

/// What a job did.
#[derive(Clone, Copy)]
pub struct Outcome {
    pub added: Option<u64>,
    pub faulted: bool,
}

/// Adds an item. Where there is no memory for it, that is a fault.
#[derive(Drop)]
pub struct Add {
    item: u64,
    outcome: Outcome,
}

impl Job<Tally> for Add {
    ghost use Rattle.std.specs.Prelude.{[], ◌∷◌};
    ghost use Rattle.turnstile.specs.Places.{one_where};

    type Lent = ();

    ghost needs = { λ _ _ _. Unit {0} };

    ghost ran = { λ _ _ _ _. Unit {0} };

    ghost notes = { λ j. j.0.outcome ∷ [] };

    ghost risen = { λ j. one_where j.0.outcome.faulted };

    fn run(&mut self, _lent: &mut (), value: &mut Tally) {
        if value.items.push(self.item).is_ok() {
            self.outcome = Outcome {
                added: Some(self.item),
                faulted: false,
            };
            return;
        }
        value.faults = value.faults.saturating_add(1);
        self.outcome = Outcome {
            added: None,
            faulted: true,
        };
    }
}

impl Add {
    /// The job before its run.
    pub fn of(item: u64) -> Add {
        Add {
            item,
            outcome: Outcome {
                added: None,
                faulted: false,
            },
        }
    }
}

/// A turnstile over an empty list.
pub fn opened(alloc: Global) -> Result<(Turnstile<Tally>, Pass<Tally>), OutOfMemory>
    ensures of { IfOk result (λ r. IsOf r.1 r.0) }
    ensures first { IfOk result (λ r. (r.1.is_first ≡ true) × (r.1.out ≡ 0) × (r.1.turns ≡ [])) }
    ensures fixed { IfOk result (λ r. r.1.fixed ≡ Some tt) }
{
    Turnstile::new(
        alloc,
        Tally {
            items: Vec::new(alloc),
            faults: 0,
        },
    )
}
