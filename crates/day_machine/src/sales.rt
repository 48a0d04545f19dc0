//! What a settled ask sold, as awards.
ghost use Rattle.std.specs.Prelude.{◌≡◌, ℕ, ◌+◌, ◌==◌, ◌&&◌, ◌^◌, ◌<◌, ◌≤◌, ◌++◌, All, length, map, slice_index_or};
ghost use Rattle.allocator_core.specs.Choice.{budget_at};
ghost use Rattle.allocator_core.specs.declared.reason.TheConstants.{AWARDED as AWARDED_MARK};
ghost use Rattle.day_rules.specs.Books.{award_of as award_by, awarded_offers, sale_of, sales_of};
ghost use Rattle.day_rules.specs.declared.limits.TheConstants.{MAX_OFFERS};
ghost use Rattle.day_machine.specs.LedgerState.{committed_in, no_places};
ghost use Rattle.day_machine.specs.Selling.{IsSoldTo, imp_awards, ask_awards};

use crate::ledger::Ledger;
use adx_units::Offer;
use allocator_core::AWARDED;
use day_rules::Ask;
use notice_book::Award;

/// Whether the offer was awarded for the impression.
fn is_award(offer: &Offer, imp: usize) -> bool
    ensures { result ≡ (offer.now.reason == AWARDED_MARK && offer.now.imp == imp) }
{
    offer.reason == AWARDED && offer.imp as usize == imp
}

/// How many offers were awarded for the impression.
fn count_of_imp(offers: &[Offer], imp: usize) -> usize
    ensures { result ≡ length (awarded_offers offers.now imp) }
{
    let mut count = 0;
    for offer in offers {
        if is_award(offer, imp) {
            count += 1;
        }
    }
    count
}

/// How many awards the ask makes once it is in a history: one for each awarded offer on one of its impressions.
pub fn sale_count(ask: &Ask) -> usize
    requires { length ask.now.offers ≤ MAX_OFFERS }
    ensures value { result ≡ length (sales_of ask.entry.now) }
    ensures few { result ≤ MAX_OFFERS }
{
    let mut count = 0;
    for imp in 0..ask.imps.len() {
        count += count_of_imp(ask.offers.as_slice(), imp);
    }
    count
}

/// The award of an offer of the ask whose entry is at that place.
fn award_of(offer: &Offer, now: u64, place: u32) -> Award
    requires { now < 2 ^ 63 }
    ensures { result ≡ award_by place (record { campaign = offer.now.campaign; charge = offer.now.charge.0; deadline = now + offer.now.life }) }
{
    Award {
        ask: place,
        campaign: offer.campaign,
        charge: offer.charge,
        won: false,
        end: None,
        deadline: now + u64::from(offer.life),
    }
}

/// Adds the awards of one impression.
fn sell_imp(ledger: &mut Ledger, offers: &[Offer], now: u64, imp: usize, place: u32)
    requires now { now < 2 ^ 63 }
    requires room { length (imp_awards place now offers.now imp) ≤ ledger.old.room }
    requires few { length ledger.old.awards + length (imp_awards place now offers.now imp) < 2 ^ 32 }
    requires known { All (IsSoldTo (length ledger.old.budgets)) offers.now }
    requires fits { (c : ℕ) → committed_in (ledger.old.awards ++ imp_awards place now offers.now imp) c ≤ budget_at ledger.old.budgets c }
    ensures budgets { ledger.new.budgets ≡ ledger.old.budgets }
    ensures awards { ledger.new.awards ≡ ledger.old.awards ++ imp_awards place now offers.now imp }
    ensures places { (n : ℕ) → slice_index_or ledger.new.places n no_places ≡ slice_index_or ledger.old.places n no_places }
    ensures room { ledger.old.room ≤ ledger.new.room + length (imp_awards place now offers.now imp) }
{
    for offer in offers {
        if is_award(offer, imp) {
            ledger.push(award_of(offer, now, place));
        }
    }
}

/// Adds the awards of the ask whose entry is at that place.
pub(crate) fn sell(ledger: &mut Ledger, ask: &Ask, place: u32)
    requires now { ask.now.now < 2 ^ 63 }
    requires room { length (ask_awards place ask.now) ≤ ledger.old.room }
    requires few { length ledger.old.awards + length (ask_awards place ask.now) < 2 ^ 32 }
    requires known { All (IsSoldTo (length ledger.old.budgets)) ask.now.offers }
    requires fits { (c : ℕ) → committed_in (ledger.old.awards ++ ask_awards place ask.now) c ≤ budget_at ledger.old.budgets c }
    ensures budgets { ledger.new.budgets ≡ ledger.old.budgets }
    ensures awards { ledger.new.awards ≡ ledger.old.awards ++ ask_awards place ask.entry.now }
    ensures places { (n : ℕ) → slice_index_or ledger.new.places n no_places ≡ slice_index_or ledger.old.places n no_places }
    ensures room { ledger.old.room ≤ ledger.new.room + length (ask_awards place ask.entry.now) }
{
    for imp in 0..ask.imps.len() {
        sell_imp(ledger, ask.offers.as_slice(), ask.now, imp, place);
    }
}
