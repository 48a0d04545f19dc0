//! Names: of auctions, campaigns, seats, creatives and impressions.

ghost use Rattle.std.specs.Prelude.{◌≡◌, IfOk, IfNone, IfSome, OnErr, IsUtf8};
ghost use Rattle.adx_units.specs.Ids.{IsSized};

use crate::memory::OutOfMemory;
use crate::text::Text;
use std::alloc::Global;
use std::marker::Model;

/// The longest name, in bytes.
pub const LONGEST_ID: usize = 128;

/// A name of 1 to 128 bytes of UTF-8: of an auction, an impression, a bidder, a seat or a campaign.
/// A contract sees its bytes.
#[derive(Debug, Drop)]
pub struct Id {
    text: Text,
}

impl Model for Id {
    ghost use Rattle.std.specs.Prelude.{List, ℕ};
    ghost use Rattle.adx_units.specs.Ids.{IsSized};

    ghost Value = { List ℕ };

    ghost view = { λ i. i.text };

    ghost invariant = { λ i. IsSized i.text };
}

impl Id {
    /// The name that this text is. None exactly where its length isn't 1 to 128 bytes.
    pub fn of(alloc: Global, text: &str) -> Result<Option<Id>, OutOfMemory>
        ensures none { IfOk result (λ found. IfNone found (¬ (IsSized text.now))) }
        ensures some { IfOk result (λ found. IfSome found (λ i. i ≡ text.now)) }
        ensures sized { IfOk result (λ found. IfSome found (λ _. IsSized text.now)) }
        ensures refused { OnErr result (IsSized text.now) }
    {
        if text.is_empty() || text.len() > LONGEST_ID {
            return Ok(None);
        }
        let text = Text::of(alloc, text)?;
        Ok(Some(Id { text }))
    }

    /// The name that this text is, without memory. None exactly where its length isn't 1 to 128 bytes.
    pub fn of_text(text: Text) -> Option<Id>
        ensures none { IfNone result (¬ (IsSized text)) }
        ensures some { IfSome result (λ i. i ≡ text) }
        ensures sized { IfSome result (λ _. IsSized text) }
    {
        let len = text.as_bytes().len();
        if len == 0 || len > LONGEST_ID {
            return None;
        }
        Some(Id { text })
    }

    /// The name as a text, without memory.
    pub fn into_text(self) -> Text
        ensures { result ≡ self }
    {
        self.text
    }

    /// The name as a text.
    pub fn as_str(&self) -> &str
        ensures value { result.now ≡ self.now }
        ensures sized { IsSized self.now }
        ensures utf8 { IsUtf8 self.now }
    {
        self.text.as_str()
    }

    /// The name's bytes.
    pub fn as_bytes(&self) -> &[u8]
        ensures value { result.now ≡ self.now }
        ensures sized { IsSized self.now }
        ensures utf8 { IsUtf8 self.now }
    {
        self.text.as_bytes()
    }

    /// A copy of this name.
    pub fn copy(&self, alloc: Global) -> Result<Id, OutOfMemory>
        ensures { IfOk result (λ i. i ≡ self.now) }
    {
        Ok(Id {
            text: self.text.copy(alloc)?,
        })
    }
}
