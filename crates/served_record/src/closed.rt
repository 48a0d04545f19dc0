//! A day that was served, as an auditor gets it.
ghost use Rattle.std.specs.Prelude.{◌≡◌, ◌≤◌, IfOk, IsTrue};
ghost use Rattle.dual_cert.specs.Assignments.{Assignment};
ghost use Rattle.dual_cert.specs.Certificates.{IsCertificate};
ghost use Rattle.day_close.specs.Choosing.{IsChosenByRule, is_undisturbed};
ghost use Rattle.day_close.specs.Closing.{IsClosing, IsWithinBudgets};
ghost use Rattle.served_record.specs.Days.{IsHistoryOf};
ghost use Rattle.served_record.specs.Served.{IsRecordOf, earned_in};

use crate::served::record_of;
use adx_units::OutOfMemory;
use bid_record::Record;
use day_close::close;
use day_rules::Entry;
use deal_floor::Roster;
use dual_cert::Cert;
use std::alloc::Global;

/// The record of a day and its certificate.
#[derive(Debug, Drop)]
pub struct ClosedDay {
    pub record: Record,
    pub cert: Cert,
}

/// Closes a roster's day: its record by its history, and the closer's certificate of that record.
pub fn close_day(
    alloc: Global,
    roster: &Roster,
    entries: &[Entry],
) -> Result<ClosedDay, OutOfMemory>
    // The entries are a legal history of the roster.
    requires { IsHistoryOf roster.now.campaigns entries.now }
    // The record is that of the history.
    ensures served { IfOk result (λ d. IsRecordOf roster.entry.now.day roster.entry.now.campaigns entries.now d.record) }
    // The certificate is the closer's of that record.
    ensures closing { IfOk result (λ d. IsClosing d.record d.cert) }
    // So a checker accepts it.
    ensures certificate { IfOk result (λ d. IsCertificate d.record d.cert) }
    // The money of the record's billed and open awards is within each budget.
    ensures within { IfOk result (λ d. IsWithinBudgets d.record) }
    // Where no award was lost or expired and no budget changed, each impression went to the rule's choice.
    ensures chosen { IfOk result (λ d. IsTrue (is_undisturbed d.record) → IsChosenByRule d.record) }
    // No assignment of the history's impressions earns more than its bound.
    ensures hindsight { IfOk result (λ d. (picks : Assignment) → earned_in picks roster.entry.now.campaigns entries.now ≤ d.cert.bound) }
{
    let record = record_of(alloc, roster, entries)?;
    let cert = close(alloc, &record)?;
    Ok(ClosedDay { record, cert })
}
