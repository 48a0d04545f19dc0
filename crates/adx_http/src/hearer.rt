//! Who hears what a host answers.

/// Who hears what a host answers.
pub trait Hearer {
    ghost use Rattle.std.specs.Prelude.{ℕ, List};

    /// What it makes of an answer.
    type Heard;

    /// What it makes of a response's status, from 0 to 999, and of its body.
    ghost hears: { Self → ℕ → List ℕ → Self.Heard → Type 0 };

    /// Hears a response.
    fn hear(self, status: u16, body: &[u8]) -> Self::Heard
        ensures hears { hears self status body.now result };
}
