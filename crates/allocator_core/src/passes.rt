//! The impressions of an ask, decided one after another: one pass over the offers for each.
ghost use Rattle.std.specs.Prelude.{◌≡◌, ◌<◌, ◌≤◌, ◌+◌, ℕ, All, IfSome, length, map};
ghost use Rattle.adx_units.specs.declared.offer.TheConstants.{ADMITTED as ADMITTED_MARK};
ghost use Rattle.allocator_core.specs.declared.limits.TheConstants.{IMP_LIMIT};
ghost use Rattle.campaign_book.specs.Accounts.{account_at};
ghost use Rattle.allocator_core.specs.Choice.{chosen_at, settled_offers, taken_by};
ghost use Rattle.allocator_core.specs.Passes.{competing_weight, decided_offers, passed, standing_with, taken_from};
ghost use Rattle.allocator_core.specs.Settling.{budgets_in, standing_in, AreOffers, IsPriced, IsUnsettled};

use crate::best::Best;
use crate::impression::weight_beside;
use crate::reason::{AWARDED, LOST_TO_HIGHER, OVER_BUDGET};
use crate::taken::Taken;
use adx_units::{ADMITTED, Offer};
use campaign_book::Book;

/// Passes over one offer: where it may be awarded for the impression, it has lost or doesn't fit until
/// the best is known. Its weight where it competes.
fn pass_over(book: &Book, taken: &Taken, imp: u32, offer: &mut Offer) -> Option<u128>
    requires { offer.old.reason ≡ ADMITTED_MARK → IsPriced (length book.now) offer.old }
    ensures weight { result ≡ competing_weight (budgets_in book.now) (standing_with book.now taken.now) imp offer.old }
    ensures offer { offer.new ≡ passed (budgets_in book.now) (standing_with book.now taken.now) imp offer.old }
{
    if offer.imp != imp || offer.reason != ADMITTED {
        return None;
    }
    let weight = weight_beside(book, taken.of(offer.campaign), offer);
    offer.reason = match weight {
        Some(_) => LOST_TO_HIGHER,
        None => OVER_BUDGET,
    };
    weight
}

/// Passes over all offers for an impression, and finds the place of the one to be awarded.
fn pass(book: &Book, taken: &Taken, imp: u32, offers: &mut [Offer]) -> Option<usize>
    requires { All (λ o. o.reason ≡ ADMITTED_MARK → IsPriced (length book.now) o) offers.old }
    ensures chosen { result ≡ chosen_at (budgets_in book.now) (standing_with book.now taken.now) offers.old imp }
    ensures offers { offers.new ≡ map (passed (budgets_in book.now) (standing_with book.now taken.now) imp) offers.old }
    ensures within { IfSome result (λ place. place < length offers.new) }
{
    let mut best = Best::new();
    for place in 0..offers.len() {
        let weight = pass_over(book, taken, imp, &mut offers[place]);
        best = best.with(place, weight);
    }
    best.place
}

/// Decides an impression beside what the earlier ones took, and adds what it takes.
fn decide(book: &Book, taken: &mut Taken, imp: u32, offers: &mut [Offer])
    requires priced { All (λ o. o.reason ≡ ADMITTED_MARK → IsPriced (length book.now) o) offers.old }
    requires room { length taken.old < IMP_LIMIT }
    ensures offers { offers.new ≡ decided_offers (budgets_in book.now) (standing_with book.now taken.old) imp offers.old }
    ensures taken { (campaign : ℕ) → taken_from taken.new campaign
        ≡ taken_from taken.old campaign + taken_by offers.old
        (chosen_at (budgets_in book.now) (standing_with book.now taken.old) offers.old imp) campaign }
    ensures few { length taken.new ≤ length taken.old + 1 }
{
    if let Some(place) = pass(book, taken, imp, offers) {
        let offer = offers[place];
        offers[place].reason = AWARDED;
        taken.push(offer.campaign, offer.charge);
    }
}

/// Decides the impressions of an ask one after another: the chosen offer of each gets the reason 0, its
/// other admitted offers 102 where they fit at that turn, and else 1001.
pub fn settle(book: &Book, offers: &mut [Offer], imps: u32)
    requires offers { AreOffers (length book.now) offers.old }
    requires unsettled { IsUnsettled imps offers.old }
    requires few_imps { imps ≤ IMP_LIMIT }
    ensures { offers.new ≡ settled_offers (budgets_in book.now) (standing_in book.now) offers.old }
{
    let mut taken = Taken::new();
    for imp in 0..imps {
        decide(book, &mut taken, imp, offers);
    }
}
