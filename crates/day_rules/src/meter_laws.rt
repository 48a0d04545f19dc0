//! What the meters of a day keep, as a function without work. It speaks of the definitions.
ghost use Rattle.day_rules.specs.DayState.{IsDay};
ghost use Rattle.day_rules.specs.Terms.{Terms};
ghost use Rattle.day_rules.specs.DayLaws.{AreDayMeters};

use crate::entry::Entry;

/// The fold of a day's steps is its meters.
pub fn day_meters_law(_history: &[Entry])
    ensures meters { (terms : Terms) → IsDay terms _history.now → AreDayMeters terms _history.now }
{}
