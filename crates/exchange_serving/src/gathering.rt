//! Who asks the bidders of a round.
ghost use Rattle.exchange_messages.specs.Floors.{Gave};

use adx_links::Link;
use exchange_messages::{Given, Round};

/// Who asks the bidders of a round.
pub trait Gathers<L: Link> {
    ghost use Rattle.exchange_messages.specs.Floors.{Gave};

    // It may be called.
    ghost ready: { Self → Type 0 };

    /// Works the lanes of a round, and gives them back with what their bidders answered.
    fn gather(&self, round: Round<'_, L>) -> Given<L>
        requires ready { ready self.now }
        ensures gave { Gave L.Link round.entry result };
}

/// One who asks them by a closure.
#[derive(Drop)]
pub(crate) struct ByClosure<'a, F> {
    pub(crate) asks: &'a F,
}

impl<L: Link, F: Fn(Round<'_, L>) -> Given<L>> Gathers<L> for ByClosure<'_, F> {
    ghost use Rattle.exchange_messages.specs.Floors.{Gave};

    ghost ready = { λ g. F.IsAlwaysCallable g.asks.now × ((x y : _) → F.post g.asks.now x y → Gave L.Link x y) };

    fn gather(&self, round: Round<'_, L>) -> Given<L>
        requires ready { F.IsAlwaysCallable self.now.asks.now × ((x y : _) → F.post self.now.asks.now x y → Gave L.Link x y) }
        ensures gave { Gave L.Link round.entry result }
    {
        (self.asks)(round)
    }
}
