//! A law of certificates.
ghost use Rattle.std.specs.Prelude.{◌≡◌};
ghost use Rattle.bid_record.specs.declared.record.Record.{Record};
ghost use Rattle.dual_cert.specs.declared.cert.Cert.{Cert};
ghost use Rattle.day_close.specs.Closing.{IsClosing};

/// A record has at most one certificate that is the closer's.
pub fn one_closing()
    ensures { (r : Record) (c d : Cert) → IsClosing r c → IsClosing r d → c ≡ d }
{}
