//! What awards are worth, and one more step of a day.
ghost use Rattle.std.specs.Prelude.{◌≡◌, ◌+◌, ◌-◌, ◌^◌, ◌<◌, ◌≤◌, ◌++◌, [], ◌∷◌, drop, length, vec_capacity, vec_len};
ghost use Rattle.std.specs.List.{sum_by};
ghost use Rattle.day_rules.specs.DayMeters.{charge_of as charge_at};
ghost use Rattle.day_rules.specs.Steps.{after, InRange};

use day_rules::{MeterStep, Meters};
use notice_book::Awards;

/// The charge of the award with that number, in units, and 0 where there is none.
pub(crate) fn charge_of(awards: &Awards, n: u32) -> u64
    ensures { result ≡ charge_at n awards.now.awards }
{
    match awards.get(n) {
        Some(award) => award.charge.0,
        None => 0,
    }
}

/// The charges of the awards from a number on, in units.
pub(crate) fn charges_from(awards: &Awards, first: u32) -> u64
    requires first { first ≤ length awards.now.awards }
    requires small { sum_by (λ w. w.charge.0) (drop first awards.now.awards) < 2 ^ 64 }
    ensures { result ≡ sum_by (λ w. w.charge.0) (drop first awards.now.awards) }
{
    let mut sum = 0;
    for n in first..awards.len() {
        sum += charge_of(awards, n);
    }
    sum
}

/// Takes one more step, without memory.
pub(crate) fn add(meters: &mut Meters, steps: &mut Vec<MeterStep>, step: MeterStep)
    requires room { 1 ≤ vec_capacity steps.old - vec_len steps.old }
    requires range { InRange (after meters.old step) }
    ensures meters { meters.new ≡ after meters.old step }
    ensures steps { steps.new.items ≡ steps.old.items ++ step ∷ [] }
    ensures left { vec_capacity steps.old - vec_len steps.old ≤ vec_capacity steps.new - vec_len steps.new + 1 }
{
    *meters = meters.after(&step);
    steps.push_reserved(step);
}
