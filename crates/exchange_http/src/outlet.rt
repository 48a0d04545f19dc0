//! Where replies go out.
ghost use Rattle.std.specs.Prelude.{◌≡◌, ◌≤◌, ℕ, List, [], Option, OnOk, OnErr};
ghost use Rattle.std.specs.Borrow.{GName};
ghost use Rattle.std.specs.Io.KnownBytes.{append_known};
ghost use Rattle.day_machine.specs.declared.batch.TheConstants.{BATCH_LIMIT as batch_limit};
ghost use Rattle.adx_http.specs.Written.{Writes, WritesBy};
ghost use Rattle.adx_io.specs.Streams.{HasCause};
ghost use Rattle.http_service.specs.Replies.{answer_bytes, refusal_bytes};
ghost use Rattle.exchange_http.specs.Gathered.{Moves, count_of};

use adx_http::WriteFault;
use adx_io::Failed;
use http_service::Answer;

/// Where replies go out: a sink, and before it replies that are gathered for it.
pub(crate) trait Outlet {
    /// The bytes that the sink took and those that are gathered for it, where the sink reports.
    ghost held: { Self → Option (List ℕ) };

    /// The bytes that the sink took, where it reports them.
    ghost sunk: { Self → Option (List ℕ) };

    /// The bytes that are gathered.
    ghost left: { Self → List ℕ };

    /// How many bytes the sink had when it last had all that was gathered.
    ghost least: { Self → ℕ };

    /// How many replies were begun or expected since.
    ghost waiting: { Self → ℕ };

    /// How often the sink has failed.
    ghost faults: { Self → ℕ };

    /// The references that it uses.
    ghost place: { Self → List GName };

    /// Gathers the reply with an answer and its body.
    fn answer(
        &mut self,
        answer: Answer,
        body: &[u8],
        close: bool,
        head: bool,
    ) -> Result<(), WriteFault>
        ensures written { Writes (held self.old) (held self.new) (answer_bytes close head answer body.now) result }
        ensures cause { WritesBy (faults self.old) (faults self.new) result }
        ensures same { (waiting self.new ≡ waiting self.old) × (least self.new ≡ least self.old) }
        ensures place { place self.new ≡ place self.old };

    /// Gathers the reply to a message that is refused, after which the connection closes.
    fn refuse(&mut self, status: u16) -> Result<(), WriteFault>
        ensures written { Writes (held self.old) (held self.new) (refusal_bytes status) result }
        ensures cause { WritesBy (faults self.old) (faults self.new) result }
        ensures same { (waiting self.new ≡ waiting self.old) × (least self.new ≡ least self.old) }
        ensures place { place self.new ≡ place self.old };

    /// Puts all that is gathered.
    fn put_out(&mut self) -> Result<(), Failed>
        ensures held { held self.new ≡ held self.old }
        ensures all { OnOk result ((left self.new ≡ []) × (waiting self.new ≡ 0) × (least self.new ≡ count_of (sunk self.new))) }
        ensures failed { OnErr result ((waiting self.new ≡ waiting self.old) × (least self.new ≡ least self.old)) }
        ensures cause { HasCause (faults self.old) (faults self.new) result }
        ensures place { place self.new ≡ place self.old };

    /// Expects so many replies more, at most 32: puts all that is gathered where more than that would wait.
    fn expect(&mut self, count: u32) -> Result<(), Failed>
        requires { count ≤ batch_limit }
        ensures held { held self.new ≡ held self.old }
        ensures moves { OnOk result (Moves count (held self.old) (least self.old) (waiting self.old) (least self.new) (waiting self.new)) }
        ensures failed { OnErr result ((waiting self.new ≡ waiting self.old) × (least self.new ≡ least self.old)) }
        ensures cause { HasCause (faults self.old) (faults self.new) result }
        ensures place { place self.new ≡ place self.old };

    /// What is gathered comes after what the sink took.
    ghost is_held: { (o : Self) → held o ≡ append_known (sunk o) (left o) };

    /// The sink only grows.
    ghost is_least: { (o : Self) → least o ≤ count_of (sunk o) };

    /// At most 32 replies wait.
    ghost is_few: { (o : Self) → waiting o ≤ batch_limit };
}
