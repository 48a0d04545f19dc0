//! Laws of documents.
ghost use Rattle.std.specs.Prelude.{◌≡◌, ◌++◌, ℕ, List};
ghost use Rattle.bid_record.specs.declared.record.Record.{Record};
ghost use Rattle.bid_record.specs.Lines.{document, record_front, record_rest};
ghost use Rattle.bid_record.specs.Refusals.{AreSame};

/// Bytes begin with the document of at most one record, and so the same stands behind it.
pub fn one_record()
    ensures { (r s : Record) (x y : List ℕ) → document r ++ x ≡ document s ++ y → AreSame r s × (x ≡ y) }
{}

/// A document is its front, the lines of its impressions, and its last line.
pub fn document_in_pieces()
    ensures { (r : Record) → document r ≡ record_front r ++ record_rest r }
{}
