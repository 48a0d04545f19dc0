//! An outbox: which posts of a history are pending, and what posts to come need.
ghost use Rattle.std.specs.Prelude.{◌≡◌, ◌≤◌, ℕ, List, [], ◌∷◌, ◌++◌, IfOk, OnErr, OnOk, length, take};
ghost use Rattle.day_rules.specs.DayState.{IsDay};
ghost use Rattle.day_rules.specs.Terms.{Terms};
ghost use Rattle.day_rules.specs.declared.entry.Entry.{Entry as EntryValue};
ghost use Rattle.outbox.specs.Following.{Follows, HasFollowed};
ghost use Rattle.outbox.specs.Pumping.{Pumps, PumpsPart};
ghost use Rattle.outbox.specs.declared.outbox.TheConstants.{ANSWER_LIMIT as LIMIT};
ghost use Rattle.outbox.specs.declared.post.TheConstants.{OPPORTUNITY_EXPIRED as EXPIRED_LOSS};
ghost use Rattle.outbox.specs.Rows.{row_loss};
ghost use Rattle.outbox.specs.Steps.{AsksFor, Continues, post_in};
ghost use Rattle.std.specs.List.{flat_map};

use crate::asking::{awarded_rows, push_lost};
use crate::post::{OPPORTUNITY_EXPIRED, Post, PostKind};
use crate::pushing::push_notice;
use crate::report::{Report, given_up_with, report_of};
use crate::rows::Rows;
use crate::trying::{keep_left, part_of, try_all};
use adx_links::Link;
use adx_units::OutOfMemory;
use allocator_core::LOST_TO_HIGHER;
use day_rules::{Ask, Entry};
use http_connection::Conn;
use std::alloc::Global;
use std::marker::Model;

/// The most bytes of the body of an answer to a post.
pub const ANSWER_LIMIT: u32 = 262_144;

/// The posts of a day that are pending, and what is kept of its awards for those to come. A contract
/// sees how many entries it followed, what it keeps of awards, the pending posts, and how many were given up.
#[derive(Drop)]
pub struct Outbox {
    alloc: Global,
    followed: u64,
    kept: Rows,
    pending: Vec<Post>,
    undeliverable: u32,
    conn: Conn,
}

impl Model for Outbox {
    ghost use Rattle.outbox.specs.Following.{OutboxState};

    ghost Value = { OutboxState };

    ghost view = { λ o. record { followed = o.followed; kept = o.kept; pending = o.pending.items; undeliverable = o.undeliverable } };

    ghost use Rattle.std.specs.Prelude.{◌≡◌};
    ghost use Rattle.outbox.specs.declared.outbox.TheConstants.{ANSWER_LIMIT};

    ghost invariant = { λ o. o.conn.limit ≡ ANSWER_LIMIT };
}

impl Outbox {
    /// An outbox that has followed no entry.
    pub fn new(alloc: Global) -> Result<Outbox, OutOfMemory>
        ensures followed { IfOk result (λ o. HasFollowed [] o) }
        ensures pending { IfOk result (λ o. o.pending ≡ []) }
        ensures undeliverable { IfOk result (λ o. o.undeliverable ≡ 0) }
    {
        Ok(Outbox {
            alloc,
            followed: 0,
            kept: Rows::new(alloc),
            pending: Vec::new(alloc),
            undeliverable: 0,
            conn: Conn::new(alloc, ANSWER_LIMIT)?,
        })
    }

    /// How many entries it followed.
    pub fn followed(&self) -> u64
        ensures { result ≡ self.now.followed }
    {
        self.followed
    }

    /// How many awards it keeps a row of: just those of which a post may still come.
    pub fn rows(&self) -> usize
        ensures { result ≡ length self.now.kept.rows }
    {
        self.kept.len()
    }

    /// The pending posts, in the order of the entries that asked for them.
    pub fn pending(&self) -> &[Post]
        ensures { result.now ≡ self.now.pending }
    {
        self.pending.as_slice()
    }

    /// How many posts it gave up since it was made, because they can't be sent: each pump adds those that it met, also
    /// one that ends without memory. The count stands still at 4,294,967,295.
    pub fn undeliverable(&self) -> u32
        ensures { result ≡ self.now.undeliverable }
    {
        self.undeliverable
    }

    /// Follows entries that stand behind those followed so far: their posts become pending, and what
    /// later posts need is kept. Where memory is wanting it has followed the entries before the one that
    /// wanted it, as `followed` tells, and may be told of the others again.
    pub fn follow(&mut self, entries: &[Entry]) -> Result<(), OutOfMemory>
        ensures { (terms : Terms) (history : List EntryValue) → HasFollowed history self.old
            → IsDay terms (history ++ entries.now) → Follows history entries.now result self.old self.new }
    {
        for entry in entries {
            match self.follow_one(entry) {
                Ok(()) => {}
                Err(wanting) => return Err(wanting),
            }
        }
        Ok(())
    }

    /// Tries each pending post once over the link, in order. A post that is delivered, or that can't be,
    /// is pending no more; one whose try met a fault of the link, another answer or none stays in its
    /// place. Where memory is wanting the posts tried so far are settled, and the others stay.
    pub fn pump<L: Link>(&mut self, link: &mut L) -> Result<Report, OutOfMemory>
        ensures { Pumps L.exchanges L.course L.faults L.place LIMIT link.old link.new result self.old self.new }
    {
        let all = self.pending.len();
        self.pump_part(0, all, link)
    }

    /// Tries so many of the pending posts once over the link, in order, from a place on, as `pump` does all of them. The
    /// others stay where they are.
    pub fn pump_part<L: Link>(
        &mut self,
        first: usize,
        most: usize,
        link: &mut L,
    ) -> Result<Report, OutOfMemory>
        ensures { PumpsPart L.exchanges L.course L.faults L.place LIMIT first most link.old link.new result self.old self.new }
    {
        let mut outcomes = Vec::new(self.alloc);
        let tried = try_all(
            self.alloc,
            &mut self.conn,
            link,
            part_of(self.pending.as_slice(), first, most),
            &mut outcomes,
        );
        keep_left(&mut self.pending, first, &outcomes);
        self.undeliverable = given_up_with(self.undeliverable, &outcomes);
        match tried {
            Ok(()) => Ok(report_of(&outcomes)),
            Err(wanting) => Err(wanting),
        }
    }

    /// Follows an entry; as before where memory is wanting.
    fn follow_one(&mut self, entry: &Entry) -> Result<(), OutOfMemory>
        ensures { (terms : Terms) (history : List EntryValue) → HasFollowed history self.old
            → IsDay terms (history ++ entry.now ∷ []) → Continues history entry.now result self.old self.new }
    {
        match self.take(entry) {
            Ok(()) => {
                self.followed = self.followed.saturating_add(1);
                Ok(())
            }
            Err(wanting) => Err(wanting),
        }
    }

    /// Does what an entry asks for.
    fn take(&mut self, entry: &Entry) -> Result<(), OutOfMemory>
        ensures { AsksFor entry.now result self.old self.new }
    {
        match entry {
            Entry::Ask(ask) => self.take_ask(ask),
            Entry::Win { award } => self.take_win(u64::from(*award)),
            Entry::Bill { award } => self.take_bill(u64::from(*award)),
            Entry::Loss { award } => self.take_loss(u64::from(*award)),
            Entry::Expire { now } => self.take_moment(*now),
            Entry::Budget { .. } => Ok(()),
        }
    }

    /// Keeps what an ask awarded, and tells of what it lost.
    fn take_ask(&mut self, ask: &Ask) -> Result<(), OutOfMemory>
        ensures { AsksFor (EntryValue.Ask ask.entry.now) result self.old self.new }
    {
        let made = awarded_rows(self.alloc, ask)?;
        let before = self.pending.len();
        match push_lost(self.alloc, &mut self.pending, self.followed, ask) {
            Ok(()) => {}
            Err(wanting) => {
                self.pending.truncate(before);
                return Err(wanting);
            }
        }
        match self.kept.make(u64::from(ask.first), made) {
            Ok(()) => Ok(()),
            Err(wanting) => {
                self.pending.truncate(before);
                Err(wanting)
            }
        }
    }

    /// Tells of a win.
    fn take_win(&mut self, n: u64) -> Result<(), OutOfMemory>
        ensures { AsksFor (EntryValue.Win n) result self.old self.new }
    {
        if let Some(row) = self.kept.get(n) {
            push_notice(
                self.alloc,
                &mut self.pending,
                self.followed,
                PostKind::Nurl,
                row,
                row.nurl.as_str(),
                Some(row.charge),
                0,
            )?;
        }
        self.kept.win(n);
        Ok(())
    }

    /// Tells of a bill.
    fn take_bill(&mut self, n: u64) -> Result<(), OutOfMemory>
        ensures { AsksFor (EntryValue.Bill n) result self.old self.new }
    {
        if let Some(row) = self.kept.get(n) {
            push_notice(
                self.alloc,
                &mut self.pending,
                self.followed,
                PostKind::Burl,
                row,
                row.burl.as_str(),
                Some(row.charge),
                0,
            )?;
        }
        self.kept.bill(n);
        Ok(())
    }

    /// Tells of a loss.
    fn take_loss(&mut self, n: u64) -> Result<(), OutOfMemory>
        ensures { AsksFor (EntryValue.Loss n) result self.old self.new }
    {
        if let Some(row) = self.kept.get(n) {
            push_notice(
                self.alloc,
                &mut self.pending,
                self.followed,
                PostKind::Lurl,
                row,
                row.lurl.as_str(),
                None,
                LOST_TO_HIGHER,
            )?;
        }
        self.kept.end(n);
        Ok(())
    }

    /// Tells of the awards that a moment ends.
    fn take_moment(&mut self, now: u64) -> Result<(), OutOfMemory>
        ensures { AsksFor (EntryValue.Expire now) result self.old self.new }
    {
        let due = self.kept.due(self.alloc, now)?;
        let before = self.pending.len();
        match push_all_due(
            self.alloc,
            &mut self.pending,
            self.followed,
            &self.kept,
            due.as_slice(),
        ) {
            Ok(()) => {
                self.kept.end_all(due.as_slice());
                Ok(())
            }
            Err(wanting) => {
                self.pending.truncate(before);
                Err(wanting)
            }
        }
    }
}

/// Adds the post of an award that a moment ends.
fn push_due(
    alloc: Global,
    out: &mut Vec<Post>,
    place: u64,
    kept: &Rows,
    n: u64,
) -> Result<(), OutOfMemory>
    ensures more { OnOk result (out.new.items ≡ out.old.items ++ post_in (row_loss place EXPIRED_LOSS) kept.now n) }
    ensures same { OnErr result (out.new.items ≡ out.old.items) }
{
    match kept.get(n) {
        None => Ok(()),
        Some(row) => push_notice(
            alloc,
            out,
            place,
            PostKind::Lurl,
            row,
            row.lurl.as_str(),
            None,
            OPPORTUNITY_EXPIRED,
        ),
    }
}

/// Adds the posts of awards that a moment ends.
fn push_all_due(
    alloc: Global,
    out: &mut Vec<Post>,
    place: u64,
    kept: &Rows,
    due: &[u64],
) -> Result<(), OutOfMemory>
    ensures more { OnOk result (out.new.items ≡ out.old.items ++ flat_map (post_in (row_loss place EXPIRED_LOSS) kept.now) due.now) }
    ensures grows { (n : ℕ) → n ≤ length out.old.items → take n out.new.items ≡ take n out.old.items }
{
    for n in due {
        push_due(alloc, out, place, kept, *n)?;
    }
    Ok(())
}
