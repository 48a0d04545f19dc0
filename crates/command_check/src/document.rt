//! A document, checked.
ghost use Rattle.std.specs.Prelude.{◌≡◌, [], IfOk, List, string_bytes, ℕ};
ghost use Rattle.adx_io.specs.declared.rest.Rest.TheVariants.{PastLimit, Whole};
ghost use Rattle.command_check.specs.Checks.{IsChecked, past_limit as refused_past};
ghost use Rattle.command_check.specs.Documents.{IsDocument};
ghost use Rattle.command_check.specs.Readings.{IsPast, IsRefused};
ghost use Rattle.command_check.specs.declared.fault.DocumentFault.TheVariants.{Long};

use crate::fault::DocumentFault;
use crate::lines::{push_fault, push_verdict};
use crate::reading::{Misread, Parts, read_document};
use adx_io::Rest;
use adx_units::OutOfMemory;
use bid_record::Record;
use cert_check::{Verdict, check};
use command_runs::Outcome;
use std::alloc::Global;

/// What came of a check.
#[derive(Drop)]
pub enum Checked {
    /// The certificate is accepted: no assignment of the record's impressions earns more than this bound, in units.
    /// Nothing is written yet.
    Accepted { rec: Record, bound: u128 },
    /// The certificate isn't accepted, or the bytes are no document. The line that says why is written.
    Ended(Outcome),
}

/// Writes why bytes are no document.
fn refuse(fault: DocumentFault, out: &mut String) -> Result<Checked, OutOfMemory>
    requires { string_bytes out.old ≡ [] }
    ensures { IfOk result (IsRefused fault (string_bytes out.new)) }
{
    push_fault(out, fault)?;
    Ok(Checked::Ended(Outcome::Refused))
}

/// The record of a document whose certificate the checker accepts; or else writes the first rule that fails.
fn accepted(parts: Parts, out: &mut String) -> Result<Checked, OutOfMemory>
    requires { string_bytes out.old ≡ [] }
    ensures { IfOk result (λ checked. (bytes : List ℕ) → IsDocument bytes parts.rec parts.cert → IsChecked Whole bytes (string_bytes out.new) checked) }
{
    let verdict = check(&parts.rec, &parts.cert);
    match verdict {
        Verdict::Accepted { bound } => Ok(Checked::Accepted {
            rec: parts.rec,
            bound,
        }),
        _ => {
            push_verdict(out, &verdict)?;
            Ok(Checked::Ended(Outcome::NotAccepted))
        }
    }
}

/// Checks a document that was read whole.
fn check_whole(alloc: Global, document: &[u8], out: &mut String) -> Result<Checked, OutOfMemory>
    requires { string_bytes out.old ≡ [] }
    ensures { IfOk result (IsChecked Whole document.now (string_bytes out.new)) }
{
    match read_document(alloc, document) {
        Ok(parts) => accepted(parts, out),
        Err(Misread::Fault(fault)) => refuse(fault, out),
        Err(Misread::OutOfMemory) => Err(OutOfMemory),
    }
}

/// Why a document is refused that passes the limit, by the fault of its part within it.
fn past_limit(fault: DocumentFault) -> DocumentFault
    ensures { result ≡ refused_past fault }
{
    match fault {
        DocumentFault::Cut => DocumentFault::Long,
        other => other,
    }
}

/// Why a document is refused behind which more bytes come.
fn too_long(_whole: Parts) -> DocumentFault
    ensures { result ≡ Long }
{
    DocumentFault::Long
}

/// Why a document is refused that passes the limit, by its part within it.
fn fault_past(alloc: Global, part: &[u8]) -> Result<DocumentFault, OutOfMemory>
    ensures { IfOk result (IsPast part.now) }
{
    match read_document(alloc, part) {
        Ok(parts) => Ok(too_long(parts)),
        Err(Misread::Fault(fault)) => Ok(past_limit(fault)),
        Err(Misread::OutOfMemory) => Err(OutOfMemory),
    }
}

/// Refuses a document that passes the limit, by its part within it.
fn check_part(alloc: Global, part: &[u8], out: &mut String) -> Result<Checked, OutOfMemory>
    requires { string_bytes out.old ≡ [] }
    ensures { IfOk result (IsChecked PastLimit part.now (string_bytes out.new)) }
{
    let fault = fault_past(alloc, part)?;
    refuse(fault, out)
}

/// Checks a document, or refuses one that passes the limit by its part within it. The record of an accepted certificate is
/// handed on, and nothing is written; else the line that says why is written to `out`.
pub fn check_document(
    alloc: Global,
    document: &[u8],
    rest: Rest,
    out: &mut String,
) -> Result<Checked, OutOfMemory>
    requires { string_bytes out.old ≡ [] }
    ensures { IfOk result (IsChecked rest document.now (string_bytes out.new)) }
{
    match rest {
        Rest::Whole => check_whole(alloc, document, out),
        Rest::PastLimit => check_part(alloc, document, out),
    }
}
