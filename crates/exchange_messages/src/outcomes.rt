//! What a notice is replied by its outcome.
ghost use Rattle.std.specs.Prelude.{◌≡◌};
ghost use Rattle.answer_lines.specs.Answers.{conflict_line};
ghost use Rattle.exchange_messages.specs.Outcomes.{outcome_reply};

use day_rules::Answer;
use http_service::{Answer as HttpAnswer, plain};
use notice_book::End;

/// The reply to a notice by its outcome, with its body: the day's answer, or None where the disk's fault gave the notice
/// up. No notice is answered `Reused`, `DayFull` or as a change of a budget is: the reply to one that were has the status,
/// and no body but that of an answer without a number.
pub fn notice_reply(outcome: &Option<Answer>) -> (HttpAnswer, &'static str)
    ensures { record { answer = result.0; body = result.1.now } ≡ outcome_reply outcome.now }
{
    match outcome {
        None => (plain(500), "{\"answer\":\"diskfault\"}"),
        Some(answer) => match answer {
            Answer::Awarded { .. } | Answer::NoSale { .. } => (plain(204), ""),
            Answer::Counted | Answer::Repeat { .. } | Answer::Ticked { .. } => (plain(204), ""),
            Answer::Budgeted => (plain(204), ""),
            Answer::Conflict { kept } => (plain(409), conflict(*kept)),
            Answer::Unknown => (plain(404), "{\"answer\":\"unknown\"}"),
            Answer::Reused { .. } => (plain(409), ""),
            Answer::BudgetReused { .. } | Answer::Late { .. } => (plain(409), ""),
            Answer::BelowCommitted { .. } => (plain(409), ""),
            Answer::NoCampaign => (plain(404), "{\"answer\":\"nocampaign\"}"),
            Answer::DayFull { .. } => (plain(503), ""),
        },
    }
}

/// The line of a notice that comes too late.
fn conflict(kept: End) -> &'static str
    ensures { result.now ≡ conflict_line kept }
{
    match kept {
        End::Billed => "{\"answer\":\"conflict\",\"kept\":\"billed\"}",
        End::Lost => "{\"answer\":\"conflict\",\"kept\":\"lost\"}",
        End::Expired => "{\"answer\":\"conflict\",\"kept\":\"expired\"}",
    }
}
