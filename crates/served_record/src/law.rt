//! A law of records.
ghost use Rattle.std.specs.Prelude.{ℕ, List};
ghost use Rattle.bid_record.specs.declared.record.Record.{Record};
ghost use Rattle.bid_record.specs.Refusals.{AreSame};
ghost use Rattle.deal_floor.specs.declared.campaign.Campaign.{Campaign};
ghost use Rattle.day_rules.specs.declared.entry.Entry.{Entry};
ghost use Rattle.served_record.specs.Served.{IsRecordOf};

/// A history has at most one record.
pub fn one_record()
    ensures { (day : List ℕ) (campaigns : List Campaign) (history : List Entry) (r s : Record)
        → IsRecordOf day campaigns history r → IsRecordOf day campaigns history s → AreSame r s }
{}
