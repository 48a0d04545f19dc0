//! What a call of serving picks: the day that its workers serve.

use adx_desk::Desk;
use adx_links::{Hall, Link};
use day_journal::Disk;
use desk_board::{BoardNames, MailNames};
use std::marker::{Brand, PhantomData};
use std::sync::Mutex;

/// The day that workers serve. A call picks it.
pub trait DayNames<L> {
    ghost use Rattle.std.specs.Prelude.{ℕ, List, Option};
    ghost use Rattle.deal_floor.specs.declared.roster.Roster.{Roster};
    ghost use Rattle.fan_out.specs.declared.lane.Lane.{Lane};
    ghost use Rattle.logbook.specs.Pages.{Book};
    ghost use Rattle.shared_desk.specs.Callers.{DeskPass};

    // The first pass, as it was when the workers began.
    ghost first: { DeskPass };

    // The list of steps that the board's readers read.
    ghost book: { Book };

    // The link that posts go over, as it was then.
    ghost link: { Option L };

    // The acceptor's count of faults then.
    ghost faults: { ℕ };

    // The roster of the day.
    ghost roster: { Option Roster };

    // The moment that the clock reports.
    ghost moment: { Option ℕ };

    // The lanes that each worker came with.
    ghost workers: { List (List (Lane L)) };
}

impl<L> DayNames<L> for Brand {
    ghost use Rattle.std.specs.Prelude.{[], None, true};

    ghost first = { record {
      turnstile = record { words = 0; slots = 0; views_name = 0; atom = 0; block = 0; offset = 0; slot_names = [] };
      is_first = true;
      out = 0;
      fixed = None;
      opening = 0;
      seen = [];
      known = 0;
      faults = 0;
      turns = [];
    } };

    ghost book = { record { number = 0; log_name = 0; cells_name = 0 } };

    ghost link = { None };

    ghost faults = { 0 };

    ghost roster = { None };

    ghost moment = { None };

    ghost workers = { [] };
}

/// What the locks and the workers of a day agree on.
pub struct Day<L, J> {
    link: PhantomData<Mutex<L>>,
    names: PhantomData<J>,
}

impl<L, J: DayNames<L>> MailNames<L> for Day<L, J> {
    ghost first = { J.first };

    ghost link = { J.link };
}

impl<L, J: DayNames<L>> BoardNames for Day<L, J> {
    ghost first = { J.first };

    ghost book = { J.book };
}

impl<D: Disk, L: Link, J: DayNames<L>> Hall<Desk<D>> for Day<L, J> {
    ghost use Rattle.exchange_serving.specs.Rounds.{IsServedIn};

    ghost first = { J.first };

    ghost others = { 2 };

    ghost faults = { J.faults };

    ghost served = { IsServedIn L.Link J.moment J.roster J.workers J.first.seen };
}
