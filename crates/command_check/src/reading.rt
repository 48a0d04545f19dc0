//! A document, read.
ghost use Rattle.std.specs.Prelude.{All, ◌≡◌, ◌≤◌, ◌<◌, ◌+◌, ◌^◌, ◌++◌, ℕ, List, length, drop};
ghost use Rattle.bid_record.specs.Lines.{document as record_document};
ghost use Rattle.bid_record.specs.Refusals.{IsRefusal as RefusesRecord};
ghost use Rattle.dual_cert.specs.Refusals.{IsRanged};
ghost use Rattle.command_check.specs.Documents.{line_count};
ghost use Rattle.command_check.specs.Readings.{IsMisread, Reads, ReadsCert};

use crate::fault::DocumentFault;
use bid_record::{Record, RecordFault, read_record};
use dual_cert::{Cert, CertFault, read_cert};
use std::alloc::Global;

/// A record, with the certificate behind it.
#[derive(Drop)]
pub(crate) struct Parts {
    pub(crate) rec: Record,
    pub(crate) cert: Cert,
}

/// Why no document was read.
#[derive(Drop)]
pub(crate) enum Misread {
    /// The bytes are none.
    Fault(DocumentFault),
    /// Memory was refused.
    OutOfMemory,
}

/// Why bytes are no document that begin with no record.
fn without_record(fault: RecordFault) -> Misread
    ensures { (bytes : List ℕ) → RefusesRecord bytes fault → IsMisread bytes result }
{
    match fault {
        RecordFault::Line { n } => Misread::Fault(DocumentFault::Line { n }),
        RecordFault::Order { n } => Misread::Fault(DocumentFault::Order { n }),
        RecordFault::Campaign { n } => Misread::Fault(DocumentFault::Campaign { n }),
        RecordFault::Cut => Misread::Fault(DocumentFault::Cut),
        RecordFault::OutOfMemory => Misread::OutOfMemory,
    }
}

/// The number in the document of a certificate's line, which comes behind the record.
fn line_behind(rec: &Record, line: u64) -> u64
    requires { line_count rec.now + line < 2 ^ 64 }
    ensures { result ≡ line_count rec.now + line }
{
    let rows = rec.campaigns.len() as u64 + rec.imps.len() as u64;
    3 + rows + line
}

/// The numbers of a list are in range, as their type has it.
fn fit(numbers: &[u64])
    ensures { All (λ n. n < 2 ^ 64) numbers.now }
{
    let _ = numbers;
}

/// The numbers of a certificate are in range.
fn ranged(cert: &Cert)
    ensures { IsRanged cert.now }
{
    fit(cert.alphas.as_slice());
    fit(cert.betas.as_slice());
    let _bound = cert.bound;
}

/// The certificate behind a record, which begins at this place.
fn read_behind(alloc: Global, bytes: &[u8], rec: &Record, start: usize) -> Result<Cert, Misread>
    requires begins { bytes.now ≡ record_document rec.now ++ drop start bytes.now }
    requires within { start ≤ length bytes.now }
    ensures { ReadsCert bytes.now rec.now result }
{
    match read_cert(alloc, &bytes[start..]) {
        Ok(cert) => {
            ranged(&cert);
            Ok(cert)
        }
        Err(CertFault::Line { n }) => {
            let n = line_behind(rec, n);
            Err(Misread::Fault(DocumentFault::Line { n }))
        }
        Err(CertFault::Cut) => Err(Misread::Fault(DocumentFault::Cut)),
        Err(CertFault::OutOfMemory) => Err(Misread::OutOfMemory),
    }
}

/// The document that these bytes are, all of them.
pub(crate) fn read_document(alloc: Global, bytes: &[u8]) -> Result<Parts, Misread>
    ensures { Reads bytes.now result }
{
    match read_record(alloc, bytes) {
        Ok((rec, start)) => match read_behind(alloc, bytes, &rec, start) {
            Ok(cert) => Ok(Parts { rec, cert }),
            Err(misread) => Err(misread),
        },
        Err(fault) => Err(without_record(fault)),
    }
}
