//! The command that checks a document, as a judge of it.
ghost use Rattle.std.specs.Prelude.{◌≡◌, [], IfOk, string_bytes};
ghost use Rattle.command_check.specs.Checks.{checks};

use crate::document::{Checked, check_document};
use crate::lines::push_verdict;
use adx_io::Rest;
use adx_units::OutOfMemory;
use cert_check::Verdict;
use command_runs::{Judge, Outcome};
use std::alloc::Global;

/// The command that checks a certificate against its record: the document is a record with a certificate after it. It
/// writes one line: the bound of a certificate that is accepted; or the first rule that fails; or why the document is none.
#[derive(Drop)]
pub struct Check;

/// Writes what is said of a document, or of one that passes the limit by its part within it, and how the check ends.
fn tell(
    alloc: Global,
    document: &[u8],
    rest: Rest,
    out: &mut String,
) -> Result<Outcome, OutOfMemory>
    requires { string_bytes out.old ≡ [] }
    ensures { IfOk result (λ outcome. checks rest document.now outcome (string_bytes out.new)) }
{
    match check_document(alloc, document, rest, out) {
        Ok(Checked::Accepted { bound, .. }) => {
            push_verdict(out, &Verdict::Accepted { bound })?;
            Ok(Outcome::Done)
        }
        Ok(Checked::Ended(outcome)) => Ok(outcome),
        Err(_) => Err(OutOfMemory),
    }
}

impl Judge for Check {
    ghost use Rattle.command_check.specs.Checks.{checks};
    ghost use Rattle.command_check.specs.Runs.{HasJudged};

    ghost course = { Unit {0} };

    ghost judges = { λ c. checks };

    ghost leaves = { λ old new c ended. HasJudged ended };

    ghost unjudged = { λ s. (tt, λ stop. tt) };

    fn judge(
        &mut self,
        alloc: Global,
        document: &[u8],
        rest: Rest,
        out: &mut String,
    ) -> Result<Outcome, OutOfMemory> {
        tell(alloc, document, rest, out)
    }
}
