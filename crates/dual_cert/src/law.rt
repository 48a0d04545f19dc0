//! Laws of documents.
ghost use Rattle.std.specs.Prelude.{◌≡◌, ◌++◌};
ghost use Rattle.dual_cert.specs.declared.cert.Cert.{Cert};
ghost use Rattle.dual_cert.specs.Lines.{cert_front, cert_rest, document};
ghost use Rattle.dual_cert.specs.Refusals.{IsRanged};

/// Bytes are the document of at most one certificate.
pub fn one_cert()
    ensures { (c d : Cert) → IsRanged c → IsRanged d → document c ≡ document d → c ≡ d }
{}

/// A document is its front, the lines of its betas, and its last line.
pub fn cert_in_pieces()
    ensures { (c : Cert) → document c ≡ cert_front c ++ cert_rest c }
{}
