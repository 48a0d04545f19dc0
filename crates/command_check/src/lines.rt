//! The lines that a check writes.
ghost use Rattle.std.specs.Prelude.{◌≡◌, ◌++◌, OnOk, decimal, string_bytes};
ghost use Rattle.command_check.specs.Answers.{failing_line, fault_line, verdict_line};

use crate::fault::DocumentFault;
use adx_units::OutOfMemory;
use cert_check::Verdict;
use itoa::Buffer;

/// Writes a text as it is.
fn push(out: &mut String, text: &str) -> Result<(), OutOfMemory>
    ensures { OnOk result (string_bytes out.new ≡ string_bytes out.old ++ text.now) }
{
    out.push_str(text)?;
    Ok(())
}

/// Writes a number in decimal.
fn push_number(out: &mut String, number: u128) -> Result<(), OutOfMemory>
    ensures { OnOk result (string_bytes out.new ≡ string_bytes out.old ++ decimal number) }
{
    let mut digits = Buffer::new();
    out.push_str(digits.format(number))?;
    Ok(())
}

/// Writes a number between two texts.
fn push_one(out: &mut String, before: &str, number: u128, behind: &str) -> Result<(), OutOfMemory>
    ensures { OnOk result (string_bytes out.new ≡ string_bytes out.old ++ (before.now ++ decimal number ++ behind.now)) }
{
    push(out, before)?;
    push_number(out, number)?;
    push(out, behind)?;
    Ok(())
}

/// Writes two numbers, each behind a text, and a last text.
fn push_two(
    out: &mut String,
    numbers: (u128, u128),
    first: &str,
    second: &str,
    last: &str,
) -> Result<(), OutOfMemory>
    ensures { OnOk result (string_bytes out.new ≡ string_bytes out.old ++ (first.now ++ decimal numbers.0 ++ second.now ++ decimal numbers.1 ++ last.now)) }
{
    push_one(out, first, numbers.0, second)?;
    push_number(out, numbers.1)?;
    push(out, last)?;
    Ok(())
}

/// Writes the line of a verdict.
pub(crate) fn push_verdict(out: &mut String, verdict: &Verdict) -> Result<(), OutOfMemory>
    ensures { OnOk result (string_bytes out.new ≡ string_bytes out.old ++ verdict_line verdict.now) }
{
    match verdict {
        Verdict::Accepted { bound } => {
            push_one(out, "{\"answer\":\"check\",\"bound\":", *bound, "}\n")
        }
        Verdict::Shape => push(out, "{\"answer\":\"check\",\"why\":\"shape\"}\n"),
        Verdict::Alpha { campaign } => push_one(
            out,
            "{\"answer\":\"check\",\"why\":\"alpha\",\"campaign\":",
            u128::from(*campaign),
            "}\n",
        ),
        Verdict::Broken { impression, offer } => push_two(
            out,
            (u128::from(*impression), u128::from(*offer)),
            "{\"answer\":\"check\",\"why\":\"broken\",\"impression\":",
            ",\"offer\":",
            "}\n",
        ),
        Verdict::Bound { stated, computed } => push_two(
            out,
            (*stated, *computed),
            "{\"answer\":\"check\",\"why\":\"bound\",\"stated\":",
            ",\"computed\":",
            "}\n",
        ),
    }
}

/// Writes the line of a document that fails in a line, by its number and why.
fn push_failing(out: &mut String, n: u64, why: &str) -> Result<(), OutOfMemory>
    ensures { OnOk result (string_bytes out.new ≡ string_bytes out.old ++ failing_line n why.now) }
{
    push_one(
        out,
        "{\"answer\":\"document\",\"line\":",
        u128::from(n),
        ",\"why\":\"",
    )?;
    push(out, why)?;
    push(out, "\"}\n")?;
    Ok(())
}

/// Writes the line of bytes that are no document.
pub(crate) fn push_fault(out: &mut String, fault: DocumentFault) -> Result<(), OutOfMemory>
    ensures { OnOk result (string_bytes out.new ≡ string_bytes out.old ++ fault_line fault) }
{
    match fault {
        DocumentFault::Cut => push(out, "{\"answer\":\"document\",\"why\":\"cut\"}\n"),
        DocumentFault::Long => push(out, "{\"answer\":\"document\",\"why\":\"long\"}\n"),
        DocumentFault::Line { n } => push_failing(out, n, "line"),
        DocumentFault::Order { n } => push_failing(out, n, "order"),
        DocumentFault::Campaign { n } => push_failing(out, n, "campaign"),
    }
}
