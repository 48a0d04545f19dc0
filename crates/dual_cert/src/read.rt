//! Reads a certificate.
ghost use Rattle.std.specs.Prelude.{◌≡◌, ◌↔◌, ◌++◌, IsTrue, IfOk, IfErr};
ghost use Rattle.formats.specs.Parts.{ended};
ghost use Rattle.dual_cert.specs.declared.cert.Cert.{Cert};
ghost use Rattle.dual_cert.specs.Lines.{head_line, document};
ghost use Rattle.dual_cert.specs.Refusals.{IsRanged, GivesCert, IsRefusal};
ghost use Rattle.dual_cert.specs.Taking.{IsBehindHead, IsTaken, IsBehindLast};

use crate::cert::Cert;
use crate::fault::CertFault;
use crate::row::{Row, row_of};
use adx_units::Sequence;
use formats::first_line;
use std::alloc::Global;

/// The certificate whose document these bytes are, all of them.
pub fn read_cert(alloc: Global, bytes: &[u8]) -> Result<Cert, CertFault>
    // What is read is spelled so.
    ensures found { IfOk result (λ c. bytes.now ≡ document c) }
    // What is spelled so is read, unless memory runs out.
    ensures only { (c : Cert) → IsRanged c → bytes.now ≡ document c → GivesCert c result }
    // A refusal names the first line that fails.
    ensures fault { IfErr result (IsRefusal bytes.now) }
{
    match behind_head(bytes) {
        Ok(rest) => read_rows(alloc, bytes, rest),
        Err(fault) => Err(fault),
    }
}

/// The bytes behind the first line.
fn behind_head(bytes: &[u8]) -> Result<&[u8], CertFault>
    ensures { IsBehindHead bytes.now result }
{
    let Some((line, rest)) = first_line(bytes) else {
        return Err(CertFault::Cut);
    };
    if is_head(line) {
        Ok(rest)
    } else {
        Err(CertFault::Line { n: 1 })
    }
}

fn is_head(line: &[u8]) -> bool
    ensures { IsTrue result ↔ (line.now ≡ head_line) }
{
    line == b"adx-cert 1".as_slice()
}

/// The rows of the lines so far.
#[derive(Debug, Drop)]
struct Rows {
    alphas: Vec<u64>,
    betas: Vec<u64>,
}

/// Takes the line with the number n: one more row, or the bound.
fn take_line(rows: &mut Rows, line: &[u8], n: u64) -> Result<Option<u128>, CertFault>
    ensures { IsTaken rows.old.alphas.items rows.old.betas.items rows.new.alphas.items rows.new.betas.items line.now n result }
{
    match row_of(line, rows.alphas.len(), rows.betas.len()) {
        Some(Row::Alpha(alpha)) => {
            rows.alphas.push(alpha)?;
            Ok(None)
        }
        Some(Row::Beta(beta)) => {
            rows.betas.push(beta)?;
            Ok(None)
        }
        Some(Row::Bound(bound)) => Ok(Some(bound)),
        None => Err(CertFault::Line { n }),
    }
}

/// The certificate of the lines behind the first, which are all that is left of the bytes.
fn read_rows(alloc: Global, bytes: &[u8], rest: &[u8]) -> Result<Cert, CertFault>
    requires { bytes.now ≡ ended head_line ++ rest.now }
    ensures found { IfOk result (λ c. (bytes.now ≡ document c) × IsRanged c) }
    ensures fault { IfErr result (IsRefusal bytes.now) }
{
    let mut rows = Rows {
        alphas: Vec::new(alloc),
        betas: Vec::new(alloc),
    };
    let mut left = rest;
    let mut n: u64 = 2;
    'lines: loop {
        let Some((line, behind)) = first_line(left) else {
            return Err(CertFault::Cut);
        };
        match take_line(&mut rows, line, n) {
            Ok(None) => {}
            Ok(Some(bound)) => return whole(bytes, rows, bound, behind, n + 1),
            Err(fault) => return Err(fault),
        }
        left = behind;
        n += 1;
    }
}

/// The certificate, if nothing stands behind its last line.
fn whole(bytes: &[u8], rows: Rows, bound: u128, rest: &[u8], n: u64) -> Result<Cert, CertFault>
    requires { IsBehindLast bytes.now rows.alphas.items rows.betas.items bound rest.now n }
    ensures found { IfOk result (λ c. (bytes.now ≡ document c) × IsRanged c) }
    ensures fault { IfErr result (IsRefusal bytes.now) }
{
    if rest.is_empty() {
        Ok(Cert {
            alphas: Sequence::from(rows.alphas),
            betas: Sequence::from(rows.betas),
            bound,
        })
    } else {
        Err(CertFault::Line { n })
    }
}
