//! What serves the messages of a connection.
ghost use Rattle.std.specs.Prelude.{◌≡◌, [], IfOk, OnErr, string_bytes};
ghost use Rattle.http_connection.specs.Answers.{Shows};
ghost use Rattle.http_connection.specs.Messages.{Request};

use crate::answer::Answer;
use adx_http::Message;
use adx_units::OutOfMemory;
use std::alloc::Global;

/// What serves the messages of a connection.
pub trait Service {
    ghost use Rattle.std.specs.Prelude.{ℕ, List};
    ghost use Rattle.std.specs.Borrow.{GName};
    ghost use Rattle.adx_io.specs.Streams.{own_place};
    ghost use Rattle.http_connection.specs.Messages.{Request};
    ghost use Rattle.http_service.specs.declared.answer.Answer.{Answer};

    /// What a message is answered in a state, with the body, and the state that it leaves.
    ghost answers: { Self → Request → Answer → List ℕ → Self → Type 0 };

    /// The state that a message leaves where memory was refused before it was answered.
    ghost gives_up: { Self → Request → Self → Type 0 };

    /// The references that the service uses, which no call exchanges.
    ghost place: { Self → List GName } = { λ _. own_place };

    /// Answers a message, and writes the answer's body, which is JSON or empty, into `body`.
    fn answer(
        &mut self,
        alloc: Global,
        message: &Message<'_>,
        body: &mut String,
    ) -> Result<Answer, OutOfMemory>
        requires { string_bytes body.old ≡ [] }
        ensures answered { IfOk result (λ a. (m : Request) → Shows message.now m → answers self.old m a (string_bytes body.new) self.new) }
        ensures gave_up { OnErr result ((m : Request) → Shows message.now m → gives_up self.old m self.new) }
        ensures same { place self.new ≡ place self.old };
}
