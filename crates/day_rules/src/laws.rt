//! Laws of the definitions: each is a function without a body, whose contract is the law.
ghost use Rattle.day_rules.specs.Laws.{BooksAreOfCallsTakenOnce, FirstGreatestChoice, NoticesCommute, OrderIsFree, RepeatsAreLeftOut, RunsStayLegal, StaysWithinBudget};

/// In every legal history the committed money of each campaign is at most its budget, so also after
/// each entry of it.
pub fn within_budget()
    ensures { StaysWithinBudget }
{}

/// Each ask of a legal history is settled after the entries before it: an offer is awarded
/// exactly where it is the first of the greatest of its impression, and the other admitted offers
/// have their reasons.
pub fn first_greatest_choice()
    ensures { FirstGreatestChoice }
{}

/// A run from a legal history is legal: it ends in one whatever its turns, so each prefix of them does.
pub fn runs_stay_legal()
    ensures { RunsStayLegal }
{}

/// The books of the history after a run are the plain books of the calls taken once: a repeat, a
/// refusal and a turn that wasn't done change no money.
pub fn calls_taken_once()
    ensures { BooksAreOfCallsTakenOnce }
{}

/// An effective turn answers Repeat exactly where the calls taken once leave it out.
pub fn repeats_are_left_out()
    ensures { RepeatsAreLeftOut }
{}

/// Two notices of different awards get the same answers and leave the same awards in either order.
pub fn notices_commute()
    ensures { NoticesCommute }
{}

/// Notices of which none bills and another loses one open award give the same ends and the same money
/// in every order. A notice that names another auction than the award's counts for nothing.
pub fn order_is_free()
    ensures { OrderIsFree }
{}
