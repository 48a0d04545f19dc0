//! Texts that own their bytes.

ghost use Rattle.std.specs.Prelude.{◌≡◌, List, ℕ, IfOk, IsUtf8};
ghost use Rattle.adx_units.specs.Texts.{kept_bytes};

use crate::memory::OutOfMemory;
use arrayvec::ArrayString;
use std::alloc::Global;
use std::marker::Model;

/// The longest text, in bytes, that is in its value and takes no memory of its own.
const SHORT: usize = 16;

// Most texts of a request are a few bytes long: each of them saves an allocation.
#[derive(Debug, Drop)]
pub(crate) enum Kept {
    Short(ArrayString<SHORT>),
    Long(String),
}

/// A text in UTF-8. A contract sees its bytes. A text of up to 16 bytes takes no memory.
#[derive(Debug, Drop)]
pub struct Text {
    kept: Kept,
}

impl Model for Text {
    ghost use Rattle.std.specs.Prelude.{◌≡◌, List, ℕ, true};
    ghost use Rattle.std.specs.Str.{is_utf8};
    ghost use Rattle.adx_units.specs.Texts.{kept_bytes};

    ghost Value = { List ℕ };

    ghost view = { λ t. kept_bytes t.kept };

    ghost invariant = { λ t. is_utf8 (kept_bytes t.kept) ≡ true };
}

fn str_of(kept: &Kept) -> &str
    ensures value { result.now ≡ kept_bytes kept.now }
{
    match kept {
        Kept::Short(text) => text.as_str(),
        Kept::Long(text) => text.as_str(),
    }
}

impl Text {
    /// A copy of a text.
    pub fn of(alloc: Global, text: &str) -> Result<Text, OutOfMemory>
        ensures { IfOk result (λ t. t ≡ text.now) }
    {
        let _bytes = text.as_bytes();
        if let Ok(short) = ArrayString::from(text) {
            return Ok(Text {
                kept: Kept::Short(short),
            });
        }
        Ok(Text {
            kept: Kept::Long(String::from_str(alloc, text)?),
        })
    }

    /// The text itself.
    pub fn as_str(&self) -> &str
        ensures value { result.now ≡ self.now }
        ensures utf8 { IsUtf8 self.now }
    {
        str_of(&self.kept)
    }

    /// The text's bytes.
    pub fn as_bytes(&self) -> &[u8]
        ensures value { result.now ≡ self.now }
        ensures utf8 { IsUtf8 self.now }
    {
        str_of(&self.kept).as_bytes()
    }

    /// A copy of this text.
    pub fn copy(&self, alloc: Global) -> Result<Text, OutOfMemory>
        ensures { IfOk result (λ t. t ≡ self.now) }
    {
        Text::of(alloc, self.as_str())
    }
}

impl From<String> for Text {
    ghost use Rattle.std.specs.Prelude.{◌≡◌};
    ghost use Rattle.std.specs.String.{string_bytes};

    ghost from_gives = { λ s t. t ≡ string_bytes s };

    fn from(inner: String) -> Text {
        let _bytes = inner.as_bytes();
        Text {
            kept: Kept::Long(inner),
        }
    }
}
