//! What a lobby and its workers agree on.
ghost use Rattle.std.specs.Prelude.{ℕ, List};
ghost use Rattle.turnstile.specs.Passes.{PassView};
ghost use Rattle.adx_links.specs.Serving.{ServedPair};

use adx_units::Counted;

/// What a lobby and its workers agree on. A call picks it.
pub trait Hall<T: Counted> {
    ghost use Rattle.std.specs.Prelude.{ℕ, List};
    ghost use Rattle.turnstile.specs.Passes.{PassView};
    ghost use Rattle.adx_links.specs.Serving.{ServedPair};

    // The first pass, as it was when the lobby was opened.
    ghost first: { PassView T.Item T.Fixed T.Turn };

    // How many passes are out beside those of pairs.
    ghost others: { ℕ };

    // The acceptor's count of faults when the lobby was opened.
    ghost faults: { ℕ };

    // What a worker does with a pair: over the list that its pass has seen.
    ghost served: { List T.Item → ServedPair T.Turn → Type 0 };
}
