//! The document of a certificate.
ghost use Rattle.std.specs.Prelude.{◌≡◌, ℕ, ◌++◌, ◌∷◌, [], List, map, IfOk, OnOk, string_bytes};
ghost use Rattle.std.specs.List.{flat_map, enumerate_from};
ghost use Rattle.std.specs.Fmt.{decimal};
ghost use Rattle.formats.specs.Parts.{ended};
ghost use Rattle.dual_cert.specs.Lines.{alpha_line, beta_line, bound_line, cert_front, document};

use crate::cert::Cert;
use adx_units::{OutOfMemory, Text};
use formats::{push_number, push_part};
use itoa::Buffer;
use std::alloc::Global;

/// The document of the certificate: its lines, each with a newline.
pub fn write_cert(alloc: Global, cert: &Cert) -> Result<Text, OutOfMemory>
    ensures { IfOk result (λ t. t ≡ document cert.now) }
{
    let mut out = String::new(alloc);
    push_cert_front(&mut out, cert)?;
    push_betas(&mut out, cert.betas.as_slice())?;
    push_bound_line(&mut out, cert.bound)?;
    Ok(Text::from(out))
}

/// Writes what stands before the betas in the document of a certificate: its first line and those of its alphas, each with
/// a newline. With `push_beta_line` for each beta and `push_bound_line` a document can be written in pieces.
pub fn push_cert_front(out: &mut String, cert: &Cert) -> Result<(), OutOfMemory>
    ensures { OnOk result (string_bytes out.new ≡ string_bytes out.old ++ cert_front cert.now) }
{
    out.push_str("adx-cert 1\n")?;
    push_alphas(out, cert.alphas.as_slice())
}

/// Writes the last line of the document of a certificate with this bound.
pub fn push_bound_line(out: &mut String, bound: u128) -> Result<(), OutOfMemory>
    ensures { OnOk result (string_bytes out.new ≡ string_bytes out.old ++ ended (bound_line bound)) }
{
    let mut digits = Buffer::new();
    out.push_str("bound ")?;
    out.push_str(digits.format(bound))?;
    out.push_str("\n")?;
    Ok(())
}

fn push_alpha(out: &mut String, i: u64, alpha: u64) -> Result<(), OutOfMemory>
    ensures { OnOk result (string_bytes out.new ≡ string_bytes out.old ++ ended (alpha_line (i, alpha))) }
{
    out.push_str("alpha ")?;
    push_number(out, i)?;
    push_part(out, alpha)?;
    out.push_str("\n")?;
    Ok(())
}

fn push_alphas(out: &mut String, alphas: &[u64]) -> Result<(), OutOfMemory>
    ensures { OnOk result (string_bytes out.new ≡ string_bytes out.old ++ flat_map ended (map alpha_line (enumerate_from 0 alphas.now))) }
{
    for (i, alpha) in alphas.iter().enumerate() {
        push_alpha(out, i as u64, *alpha)?;
    }
    Ok(())
}

/// Writes the line of a beta with its index in the certificate, from 0 on.
pub fn push_beta_line(out: &mut String, j: u64, beta: u64) -> Result<(), OutOfMemory>
    ensures { OnOk result (string_bytes out.new ≡ string_bytes out.old ++ ended (beta_line (j, beta))) }
{
    out.push_str("beta ")?;
    push_number(out, j)?;
    push_part(out, beta)?;
    out.push_str("\n")?;
    Ok(())
}

fn push_betas(out: &mut String, betas: &[u64]) -> Result<(), OutOfMemory>
    ensures { OnOk result (string_bytes out.new ≡ string_bytes out.old ++ flat_map ended (map beta_line (enumerate_from 0 betas.now))) }
{
    for (j, beta) in betas.iter().enumerate() {
        push_beta_line(out, j as u64, *beta)?;
    }
    Ok(())
}
