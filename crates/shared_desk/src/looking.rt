//! Looks at a shared desk: they add no turn.
ghost use Rattle.std.specs.Prelude.{◌≡◌, drop, IfOk};
ghost use Rattle.turnstile.specs.Passes.{IsOf};
ghost use Rattle.answer_lines.specs.Table.{closing_table};
ghost use Rattle.day_rules.specs.Replies.{seen_in};
ghost use Rattle.adx_desk.specs.Rosters.{desk_terms};
ghost use Rattle.adx_desk.specs.Shared.{terms_in};
ghost use Rattle.shared_desk.specs.Callers.{Looks};

use crate::copying::copies_of;
use crate::shared_desk::SharedDesk;
use adx_desk::{Desk, table_of};
use adx_units::{OutOfMemory, Text};
use day_journal::Disk;
use day_rules::{Entry, Seen};
use deal_floor::Roster;
use std::alloc::Global;
use std::sync::Wait;
use turnstile::{Job, Pass};

/// Whether a request stands in the history.
#[derive(Drop)]
struct Look<'a> {
    auction: &'a str,
    digest: &'a [u8; 32],
    found: Option<Seen>,
}

impl<'a, D: Disk> Job<Desk<D>> for Look<'a> {
    ghost use Rattle.std.specs.Prelude.{◌≡◌, [], Some};
    ghost use Rattle.day_rules.specs.Replies.{seen_in};

    type Lent = ();

    ghost needs = { λ _ _ _. Unit {0} };

    ghost ran = { λ j _ before k. k.0.found ≡ Some (seen_in before j.0.auction.now j.0.digest.now) };

    ghost notes = { λ _. [] };

    ghost risen = { λ _. 0 };

    fn run(&mut self, _lent: &mut (), desk: &mut Desk<D>) {
        self.found = Some(desk.seen(self.auction, self.digest));
    }
}

/// The closing table of the history.
#[derive(Drop)]
struct Table<'a> {
    alloc: Global,
    roster: &'a Roster,
    found: Option<Result<Text, OutOfMemory>>,
}

impl<'a, D: Disk> Job<Desk<D>> for Table<'a> {
    ghost use Rattle.std.specs.Prelude.{◌≡◌, [], Some, IfOk, IsSomeAnd};
    ghost use Rattle.answer_lines.specs.Table.{closing_table};
    ghost use Rattle.adx_desk.specs.Rosters.{desk_terms};
    ghost use Rattle.adx_desk.specs.Shared.{terms_in};

    type Lent = ();

    ghost needs = { λ j _ opened. terms_in opened ≡ desk_terms j.roster.now };

    ghost ran = { λ j _ before k. IsSomeAnd k.0.found (λ r. IfOk r (λ text.
        text ≡ closing_table j.0.roster.now.campaigns (desk_terms j.0.roster.now).day before)) };

    ghost notes = { λ _. [] };

    ghost risen = { λ _. 0 };

    fn run(&mut self, _lent: &mut (), desk: &mut Desk<D>) {
        self.found = Some(table_of(self.alloc, desk, self.roster));
    }
}

/// Copies of the entries from a place on; none where it is past the end.
#[derive(Drop)]
struct Since {
    alloc: Global,
    n: u64,
    found: Option<Result<Vec<Entry>, OutOfMemory>>,
}

impl<D: Disk> Job<Desk<D>> for Since {
    ghost use Rattle.std.specs.Prelude.{◌≡◌, [], drop, IfOk, IsSomeAnd};

    type Lent = ();

    ghost needs = { λ _ _ _. Unit {0} };

    ghost ran = { λ j _ before k. IsSomeAnd k.0.found (λ r. IfOk r (λ copies. copies.items ≡ drop j.0.n before)) };

    ghost notes = { λ _. [] };

    ghost risen = { λ _. 0 };

    fn run(&mut self, _lent: &mut (), desk: &mut Desk<D>) {
        let n = self.n.min(desk.count());
        let copies = copies_of(self.alloc, desk.entries_since(n));
        self.found = Some(copies);
    }
}

impl<D: Disk + Drop> SharedDesk<D> {
    /// Whether a request stands in the history, by its auction and its digest, or its auction with another request.
    pub fn seen<R: Wait>(
        &self,
        rt: &R,
        pass: &mut Pass<Desk<D>>,
        auction: &str,
        digest: &[u8; 32],
    ) -> Seen
        requires of { IsOf pass.old self.now }
        ensures turn { Looks self.now.fixed pass.old pass.new }
        ensures seen { result ≡ seen_in pass.new.seen auction.now digest.now }
    {
        let mut job = Look {
            auction,
            digest,
            found: None,
        };
        self.turnstile.turn(rt, pass, &mut job, &mut ());
        pass.recall();
        job.found.unwrap()
    }

    /// The closing table of the history: a line for each of the roster's campaigns, and one of counts, each with its newline.
    pub fn book_lines<R: Wait>(
        &self,
        rt: &R,
        alloc: Global,
        pass: &mut Pass<Desk<D>>,
        roster: &Roster,
    ) -> Result<Text, OutOfMemory>
        requires of { IsOf pass.old self.now }
        requires roster { terms_in self.now.fixed ≡ desk_terms roster.now }
        ensures turn { Looks self.now.fixed pass.old pass.new }
        ensures lines { IfOk result (λ text. text
            ≡ closing_table roster.entry.now.campaigns (desk_terms roster.entry.now).day pass.new.seen) }
    {
        let mut job = Table {
            alloc,
            roster,
            found: None,
        };
        self.turnstile.turn(rt, pass, &mut job, &mut ());
        pass.recall();
        job.found.unwrap()
    }

    /// Copies of the history's entries from the place n on, from 0; none where n is past the end.
    pub fn copy_since<R: Wait>(
        &self,
        rt: &R,
        alloc: Global,
        pass: &mut Pass<Desk<D>>,
        n: u64,
    ) -> Result<Vec<Entry>, OutOfMemory>
        requires of { IsOf pass.old self.now }
        ensures turn { Looks self.now.fixed pass.old pass.new }
        ensures copies { IfOk result (λ copies. copies.items ≡ drop n pass.new.seen) }
    {
        let mut job = Since {
            alloc,
            n,
            found: None,
        };
        self.turnstile.turn(rt, pass, &mut job, &mut ());
        pass.recall();
        job.found.unwrap()
    }
}
