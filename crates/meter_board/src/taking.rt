//! How steps get after the list.
ghost use Rattle.std.specs.Prelude.{◌≡◌, ◌+◌, ◌++◌, ◌==◌, ◌<◌, ◌^◌, length, MatchBool};
ghost use Rattle.meter_board.specs.BookRule.{head_of};

use crate::book::{Add, Head, Law, Nothing, Taking, Token};
use day_rules::{MeterStep, StepKind};
use logbook::Offer;

/// Puts the steps after a list of so many, and answers how many it found there.
pub(crate) fn put_behind<K: Taking>(
    head: &Head,
    seen: &mut Token,
    at: u64,
    next: u64,
    _steps: &[MeterStep],
) -> u64
    requires steps { K.steps ≡ _steps.now }
    requires head { head.now ≡ head_of seen.old.book }
    requires at { length seen.old.log ≡ at }
    requires next { at + length _steps.now ≡ next }
    ensures book { seen.new.book ≡ seen.old.book }
    ensures put { MatchBool (result == at) (seen.new.log ≡ seen.old.log ++ _steps.now) (Unit {0}) }
{
    let none = MeterStep {
        kind: StepKind::Ask,
        count: 0,
        money: 0,
    };
    let mut offer: Offer<MeterStep, (), Law, Nothing> = seen.plain::<Nothing, MeterStep, Nothing>(
        &none,
    );
    let mut pen = seen.no_pen();
    head.compare_exchange::<Add<K>, Nothing>(at, next, seen, &mut offer, &mut pen)
}
