//! How an outbox is brought up to a history.
ghost use Rattle.std.specs.Prelude.{◌≡◌, ◌++◌, List, [], IfOk, IfErr};
ghost use Rattle.day_rules.specs.DayState.{IsDay};
ghost use Rattle.day_rules.specs.Terms.{Terms};
ghost use Rattle.day_rules.specs.declared.entry.Entry.{Entry as EntryValue};
ghost use Rattle.desk_board.specs.Rooms.{BringsUp, FollowsUp, GoesOver, HasTended, KeepsUp, TendsTold};

use crate::mail::Mail;
use adx_links::Link;
use adx_units::OutOfMemory;
use day_rules::Entry;
use outbox::{Outbox, Report};
use std::alloc::Global;

impl<L: Link + Drop> Mail<L> {
    /// An outbox that has followed nothing, and the link of its posts, which is given back where memory is refused.
    pub fn new(alloc: Global, link: L) -> Result<Mail<L>, (OutOfMemory, L)>
        ensures first { IfOk result (HasTended L.Link [] link) }
        ensures same { IfOk result (λ mail. mail.link ≡ link) }
        ensures back { IfErr result (λ e. e.1 ≡ link) }
    {
        match Outbox::new(alloc) {
            Ok(outbox) => Ok(Mail { outbox, link }),
            Err(wanting) => Err((wanting, link)),
        }
    }

    /// Follows entries that stand behind those followed so far, and then tries each post once that is pending: those that
    /// were, in their order, and those of the entries behind them. Where memory is refused the first of the entries were
    /// followed and the first of the posts tried, and a later call may do the rest.
    pub fn bring_up(&mut self, entries: &[Entry]) -> Result<(), OutOfMemory>
        ensures { (terms : Terms) (history : List EntryValue) (link : L)
            → IsDay terms (history ++ entries.now) → HasTended L.Link history link self.old
            → BringsUp L.Link history entries.now link self.old self.new result }
    {
        let followed = self.outbox.follow(entries);
        let pumped = self.outbox.pump(&mut self.link);
        match followed {
            Ok(()) => match pumped {
                Ok(_report) => Ok(()),
                Err(wanting) => Err(wanting),
            },
            Err(wanting) => Err(wanting),
        }
    }

    /// Follows entries that stand behind those followed so far, and tries no post. Where memory is refused the first of the
    /// entries were followed, and a later call may do the rest.
    pub fn follow(&mut self, entries: &[Entry]) -> Result<(), OutOfMemory>
        ensures { (terms : Terms) (history : List EntryValue) (link : L)
            → IsDay terms (history ++ entries.now) → HasTended L.Link history link self.old
            → FollowsUp L.Link history entries.now link self.old self.new result }
    {
        self.outbox.follow(entries)
    }

    /// Tries so many of the pending posts once, from a place on. Where memory is refused the first of them were tried.
    pub fn go_over(&mut self, first: usize, most: usize) -> Result<Report, OutOfMemory>
        ensures { GoesOver L.Link first most self.old self.new result }
    {
        self.outbox.pump_part(first, most, &mut self.link)
    }

    /// Follows entries that stand behind those followed so far, and then tries each of their posts once. Posts that were
    /// pending stay, untried. Where memory is refused the first of all that was done, and a later call may do the rest.
    fn keep_up(&mut self, entries: &[Entry]) -> Result<(), OutOfMemory>
        ensures { (terms : Terms) (history : List EntryValue) (link : L)
            → IsDay terms (history ++ entries.now) → HasTended L.Link history link self.old
            → KeepsUp L.Link history entries.now link self.old self.new result }
    {
        let place = self.outbox.pending().len();
        let followed = self.follow(entries);
        let all = self.outbox.pending().len();
        let tried = self.go_over(place, all);
        match followed {
            Ok(()) => match tried {
                Ok(_report) => Ok(()),
                Err(wanting) => Err(wanting),
            },
            Err(wanting) => Err(wanting),
        }
    }

    /// Tries so many of the pending posts once, from a place on, and then follows entries that stand behind those followed so
    /// far, and tries each of their posts once. The report is of the posts that were pending. Where memory is refused the
    /// first of all that was done, and a later call may do the rest.
    pub fn tend(
        &mut self,
        entries: &[Entry],
        first: usize,
        most: usize,
    ) -> Result<Report, OutOfMemory>
        ensures { (terms : Terms) (history : List EntryValue) (link : L)
            → IsDay terms (history ++ entries.now) → HasTended L.Link history link self.old
            → TendsTold L.Link history entries.now link first most self.old self.new result }
    {
        match self.go_over(first, most) {
            Ok(report) => match self.keep_up(entries) {
                Ok(()) => Ok(report),
                Err(wanting) => Err(wanting),
            },
            Err(wanting) => Err(wanting),
        }
    }
}
