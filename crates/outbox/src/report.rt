//! What came of tries.
ghost use Rattle.std.specs.Prelude.{◌≡◌, ◌∷◌, ◌++◌, [], List};
ghost use Rattle.outbox.specs.Pumping.{given_up_with, report_of, stays};
ghost use Rattle.outbox.specs.declared.report.Outcome.{Outcome as OutcomeValue};

/// What came of one try of a post.
#[derive(Clone, Copy, Debug, PartialEq, Eq)]
pub enum Outcome {
    /// It was answered by a status of 200 to 299, and is pending no more.
    Delivered,
    /// The link failed; it stays pending.
    Failed,
    /// It was answered otherwise, or by no response; it stays pending.
    Answered,
    /// Its URL can't be fetched, and it is pending no more.
    Undeliverable,
}

/// How many posts of a pump came to each outcome. A count stands still at its last value.
#[derive(Clone, Copy, Debug, PartialEq, Eq)]
pub struct Report {
    /// With an answer of 200 to 299.
    pub delivered: u32,
    /// With a fault of the link.
    pub failed: u32,
    /// With another status, or with an answer that is no response of HTTP/1.1 within its bounds.
    pub answered: u32,
    /// With a URL that isn't one, has another scheme than http, or has no host.
    pub undeliverable: u32,
}

impl Outcome {
    /// Whether the post stays pending.
    pub(crate) fn stays(self) -> bool
        ensures { result ≡ stays self }
    {
        match self {
            Outcome::Failed | Outcome::Answered => true,
            Outcome::Delivered | Outcome::Undeliverable => false,
        }
    }
}

impl Report {
    /// With one outcome more.
    fn with(self, outcome: Outcome) -> Report
        ensures { (os : List OutcomeValue) → self ≡ report_of os → result ≡ report_of (os ++ outcome ∷ []) }
    {
        match outcome {
            Outcome::Delivered => Report {
                delivered: self.delivered.saturating_add(1),
                ..self
            },
            Outcome::Failed => Report {
                failed: self.failed.saturating_add(1),
                ..self
            },
            Outcome::Answered => Report {
                answered: self.answered.saturating_add(1),
                ..self
            },
            Outcome::Undeliverable => Report {
                undeliverable: self.undeliverable.saturating_add(1),
                ..self
            },
        }
    }
}

/// The report of all outcomes.
pub(crate) fn report_of(outcomes: &[Outcome]) -> Report
    ensures { result ≡ report_of outcomes.now }
{
    let mut report = Report {
        delivered: 0,
        failed: 0,
        answered: 0,
        undeliverable: 0,
    };
    for outcome in outcomes {
        report = report.with(*outcome);
    }
    report
}

/// How many posts were given up, those of these outcomes too.
pub(crate) fn given_up_with(before: u32, outcomes: &[Outcome]) -> u32
    ensures { result ≡ given_up_with before outcomes.now }
{
    before.saturating_add(report_of(outcomes).undeliverable)
}
