//! An outbox, its link, and a pass of the desk whose history it follows, for a lock.
ghost use Rattle.std.specs.Prelude.{◌≡◌, ◌≤◌, Some};
ghost use Rattle.turnstile.specs.Passes.{IsOf};
ghost use Rattle.shared_desk.specs.Callers.{Looks};
ghost use Rattle.shared_desk.specs.Idle.{IsIdle};
ghost use Rattle.desk_board.specs.Rooms.{IsTended, IsTendedTo};
ghost use Rattle.desk_board.specs.declared.mailroom.TheConstants.{PIECE as piece_size};

use crate::mail::Mail;
use crate::mail_names::MailNames;
use adx_desk::Desk;
use adx_links::Link;
use adx_units::OutOfMemory;
use day_journal::Disk;
use outbox::Report;
use shared_desk::SharedDesk;
use std::alloc::Global;
use std::marker::{Model, PhantomData};
use std::sync::Wait;
use turnstile::Pass;

/// How many pending posts are tried again at once.
const PIECE: usize = 64;

/// Which of the pending posts are tried again: so many from a place on.
#[derive(Clone, Copy)]
struct Piece {
    first: usize,
    most: usize,
}

/// From where pending posts are tried again, where they aren't tried all at once, and from which moment on.
#[derive(Clone, Copy, Drop)]
struct Turn {
    place: usize,
    moment: u64,
}

impl Turn {
    /// Which of so many pending posts are tried again now: all, where they are few, and else some of them once it is time.
    fn piece(self, pending: usize, now: u64) -> Piece
        ensures { pending ≤ piece_size → (result.first ≡ 0) × (result.most ≡ piece_size) }
    {
        if pending <= PIECE {
            return Piece {
                first: 0,
                most: PIECE,
            };
        }
        if now < self.moment {
            return Piece { first: 0, most: 0 };
        }
        Piece {
            first: if self.place < pending { self.place } else { 0 },
            most: PIECE,
        }
    }

    /// What is next behind a piece of which so many are pending no more: those behind it, and at once only where some are.
    fn behind(self, piece: Piece, gone: usize, now: u64) -> Turn {
        if piece.most == 0 {
            return self;
        }
        Turn {
            place: piece.first.saturating_add(PIECE.saturating_sub(gone)),
            moment: if 0 < gone { now } else { now.saturating_add(1) },
        }
    }
}

/// How many posts are pending no more.
fn gone(report: Report) -> usize {
    (report.delivered as usize).saturating_add(report.undeliverable as usize)
}

/// Whether so many posts are more than a piece, of which some went: then the next piece may be tried at once.
fn may_go_on(pending: usize, gone: usize) -> bool {
    PIECE < pending && 0 < gone
}

/// An outbox and its link, with a pass of the desk whose history it follows. It stands behind a lock, so all that is known of
/// it is what it keeps: each post of what was followed is pending, or was settled by a try over the link.
#[derive(Drop)]
pub struct Mailroom<D: Disk + Drop, L: Link, J: MailNames<L>> {
    mail: Mail<L>,
    pass: Pass<Desk<D>>,
    names: PhantomData<J>,
    turn: Turn,
}

impl<D: Disk + Drop, L: Link, J: MailNames<L>> Model for Mailroom<D, L, J> {
    ghost use Rattle.shared_desk.specs.Callers.{DeskPass};
    ghost use Rattle.desk_board.specs.declared.mail.Mail.{Mail};
    ghost use Rattle.desk_board.specs.Rooms.{IsMailroom};

    ghost Value = { Mail L × DeskPass };

    ghost view = { λ m. (m.mail, m.pass) };

    ghost invariant = { λ m. IsMailroom L.Link J.first J.link m.mail m.pass };
}

impl<D: Disk + Drop, L: Link + Drop, J: MailNames<L>> Mailroom<D, L, J> {
    /// A mailroom over an outbox that has followed a front of what the pass has seen.
    pub fn open(mail: Mail<L>, pass: Pass<Desk<D>>) -> Self
        requires idle { IsIdle J.first pass }
        requires link { J.link ≡ Some mail.link }
        requires tended { IsTendedTo L.Link J.link pass.seen mail }
        ensures { result ≡ (mail, pass) }
    {
        Mailroom {
            mail,
            pass,
            names: PhantomData,
            turn: Turn {
                place: 0,
                moment: 0,
            },
        }
    }

    /// Tries pending posts again, and then follows the desk's history to its end and tries each post of what is new once. All
    /// pending posts are tried again, where they are few, and else 64 of them from where the last call left off; where none of
    /// those was delivered the next are tried in the next second. True says that many are pending and some were delivered: more
    /// may be tried at once. Where memory is refused some of it isn't done, and a later call may do it.
    pub fn tend<R: Wait>(
        &mut self,
        rt: &R,
        alloc: Global,
        desk: &SharedDesk<D>,
        now: u64,
    ) -> Result<bool, OutOfMemory>
        requires desk { IsOf J.first desk.now }
        ensures turn { Looks desk.now.fixed self.old.1 self.new.1 }
        ensures tended { IsTended L.Link J.link self.new.1.seen self.old.0 self.new.0 result }
    {
        let pending = self.mail.outbox.pending().len();
        let piece = self.turn.piece(pending, now);
        let followed = self.mail.outbox.followed();
        match desk.copy_since(rt, alloc, &mut self.pass, followed) {
            Ok(entries) => {
                desk.recall(&self.pass);
                match self.mail.tend(entries.as_slice(), piece.first, piece.most) {
                    Ok(report) => {
                        let gone = gone(report);
                        self.turn = self.turn.behind(piece, gone, now);
                        Ok(may_go_on(pending, gone))
                    }
                    Err(wanting) => Err(wanting),
                }
            }
            Err(wanting) => Err(wanting),
        }
    }

    /// Gives outbox, link and pass back.
    pub fn leave(self) -> (Mail<L>, Pass<Desk<D>>)
        ensures same { result ≡ self }
        ensures idle { IsIdle J.first result.1 }
        ensures tended { IsTendedTo L.Link J.link result.1.seen result.0 }
    {
        let Self {
            mail,
            pass,
            names: _,
            turn: _,
        } = self;
        (mail, pass)
    }
}
