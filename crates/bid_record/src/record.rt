//! A day's record.
ghost use Rattle.std.proofs.Props.{props};
ghost use Rattle.bid_record.specs.Records.{IsSound};

use crate::rows::{CampaignRow, ImpRow};
use adx_units::{Sequence, Text};

/// The record of one day.
#[derive(Debug, Drop)]
pub struct Record {
    /// 1, or 2 where impressions have names and campaigns their numbers of changes.
    pub format: u8,
    /// The day, as the roster has it.
    pub day: Text,
    pub campaigns: Sequence<CampaignRow>,
    pub imps: Sequence<ImpRow>,
    pub ghost sound: { IsSound format day campaigns imps } by { Prim.hlevel props },
}
