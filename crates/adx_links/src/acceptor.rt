//! Where connections come from.
ghost use Rattle.std.specs.Prelude.{◌≡◌, ℕ, Bool, true, Option, IfOk, IfSome};
ghost use Rattle.adx_io.specs.Streams.{HasCause, WhereTold};
ghost use Rattle.adx_links.specs.Pairs.{GetsBack, GivesOut, IsNew, PairsTold, is_over_after, told_of};

use adx_io::{Failed, Sink, Source};

/// Where connections come from, each as a pair of a source and a sink.
pub trait Acceptor {
    ghost use Rattle.std.specs.Prelude.{ℕ, Bool, Option};
    ghost use Rattle.adx_links.specs.Pairs.{PairsTold};

    /// What a connection's peer sends.
    type In: Source + Drop + Send;

    /// What is sent to a connection's peer.
    type Out: Sink + Drop + Send;

    /// How often the acceptor has failed; it never falls.
    ghost faults: { Self → ℕ };

    /// The pairs given out and given back, where the acceptor reports them.
    ghost pairs: { Self → Option (PairsTold (Self.In × Self.Out)) };

    /// It said that no more connections come.
    ghost is_over: { Self → Bool };

    /// The pair is closed for its peer: nobody is kept waiting at its other end.
    ghost is_finished: { (Self.In × Self.Out) → Bool };

    /// Waits for a connection and gives its pair out, as new. None: no more connections come.
    fn accept(&mut self) -> Result<Option<(Self::In, Self::Out)>, Failed>
        ensures gives { WhereTold (pairs self.old) (pairs self.new) (GivesOut result) }
        ensures new { IfOk result (λ came. IfSome came
            (λ p. IsNew (told_of Self.In.Source.tape Self.In.Source.faults Self.Out.Sink.held Self.Out.Sink.faults p))) }
        ensures over { is_over self.new ≡ is_over_after (is_over self.old) result }
        ensures cause { HasCause (faults self.old) (faults self.new) result };

    /// Closes a pair for its peer.
    fn finish(pair: &mut (Self::In, Self::Out))
        ensures finished { is_finished pair.new ≡ true }
        ensures same { told_of Self.In.Source.tape Self.In.Source.faults Self.Out.Sink.held Self.Out.Sink.faults pair.new
            ≡ told_of Self.In.Source.tape Self.In.Source.faults Self.Out.Sink.held Self.Out.Sink.faults pair.old };

    /// Gets a pair back that was closed for its peer. Where as many were given back as were given out, it is dropped. It takes
    /// no memory.
    fn done(&mut self, pair: (Self::In, Self::Out))
        requires finished { is_finished pair ≡ true }
        ensures back { WhereTold (pairs self.old) (pairs self.new) (GetsBack pair) }
        ensures over { is_over self.new ≡ is_over self.old }
        ensures faults { faults self.new ≡ faults self.old };
}
