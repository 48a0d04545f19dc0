//! Other hosts that are called and answer.
ghost use Rattle.std.specs.Prelude.{◌≡◌, ◌≤◌, ◌<◌, ℕ, List, length, Option, None, IfOk, IfSome, IsErr};
ghost use Rattle.adx_io.specs.Streams.{HasCause, WhereTold, put_of};
ghost use Rattle.adx_links.specs.Links.{Answers, Asks, Begins, Connects, Course, Exchanges, FailsPut, FailsStart, FailsTake, Puts, Takes};

use adx_io::Failed;

/// One connection at a time to other hosts: each start calls a host, and what is asked and answered
/// after it goes over that connection.
pub trait Link {
    ghost use Rattle.std.specs.Prelude.{ℕ, List, Option};
    ghost use Rattle.std.specs.Borrow.{GName};
    ghost use Rattle.adx_io.specs.Streams.{own_place};
    ghost use Rattle.adx_links.specs.Links.{Course, Exchanges};

    /// How often the link has failed; it never falls.
    ghost faults: { Self → ℕ };

    /// What was asked and answered since each start, where the link reports it.
    ghost exchanges: { Self → Option Exchanges };

    /// What the open connection and the starts to come do, where the link has a plan and reports it.
    ghost course: { Self → Option Course };

    /// The references that the link uses, which no call exchanges.
    ghost place: { Self → List GName } = { λ _. own_place };

    /// Ends the connection that is open, and calls a host at a port. After a fault no connection is open.
    fn start(&mut self, host: &str, port: u16) -> Result<(), Failed>
        ensures begins { WhereTold (exchanges self.old) (exchanges self.new) (Begins host.now port result) }
        ensures connects { WhereTold (course self.old) (course self.new) (Connects result) }
        ensures planned { IfSome (course self.old) (λ c. FailsStart c → IsErr result) }
        ensures cause { HasCause (faults self.old) (faults self.new) result }
        ensures same { place self.new ≡ place self.old };

    /// Asks the front of the piece over the connection, and says how much of it: at least one byte of a
    /// piece that isn't empty. After a fault nothing was asked. Without a connection it is a fault.
    fn put(&mut self, piece: &[u8]) -> Result<usize, Failed>
        ensures count { IfOk result (λ n. n ≤ length piece.now) }
        ensures some { IfOk result (λ n. 0 < length piece.now → 0 < n) }
        ensures asks { WhereTold (exchanges self.old) (exchanges self.new) (Asks (put_of result piece.now)) }
        ensures goes_on { IfSome (exchanges self.old) (λ e. e.now ≡ None → IsErr result) }
        ensures puts { WhereTold (course self.old) (course self.new) Puts }
        ensures planned { IfSome (course self.old) (λ c. FailsPut c.now → IsErr result) }
        ensures cause { HasCause (faults self.old) (faults self.new) result }
        ensures same { place self.new ≡ place self.old };

    /// Moves the next bytes that are answered to the front of `out`, and says how many. 0 for an `out`
    /// that isn't empty is the end of the answer. After a fault nothing was moved. Without a connection
    /// it is a fault.
    fn take(&mut self, out: &mut [u8]) -> Result<usize, Failed>
        ensures count { IfOk result (λ n. n ≤ length out.old) }
        ensures answers { WhereTold (exchanges self.old) (exchanges self.new) (Answers (put_of result out.new)) }
        ensures goes_on { IfSome (exchanges self.old) (λ e. e.now ≡ None → IsErr result) }
        ensures takes { WhereTold (course self.old) (course self.new) (Takes out.new result) }
        ensures planned { IfSome (course self.old) (λ c. FailsTake c.now → IsErr result) }
        ensures cause { HasCause (faults self.old) (faults self.new) result }
        ensures same { place self.new ≡ place self.old };
}

impl<L: Link> Link for &mut L {
    ghost use Rattle.std.specs.Prelude.{◌∷◌};

    ghost faults = { λ l. L.faults l.now };

    ghost exchanges = { λ l. L.exchanges l.now };

    ghost course = { λ l. L.course l.now };

    ghost place = { λ l. l.ghost_name ∷ L.place l.now };

    fn start(&mut self, host: &str, port: u16) -> Result<(), Failed> {
        (**self).start(host, port)
    }

    fn put(&mut self, piece: &[u8]) -> Result<usize, Failed> {
        (**self).put(piece)
    }

    fn take(&mut self, out: &mut [u8]) -> Result<usize, Failed> {
        (**self).take(out)
    }
}
