//! A set of names that are borrowed.
ghost use Rattle.std.specs.Prelude.{◌≡◌, ◌||◌, [], List, ℕ, IfOk, OnErr, OnOk};
ghost use Rattle.std.specs.Str.{bytes_eq};
ghost use Rattle.adx_units.specs.Among.{is_among};

use crate::memory::OutOfMemory;
use crate::text::Text;
use std::alloc::Global;
use std::collections::BTreeSet;
use std::marker::Model;

/// Some names, compared by their bytes. A look-up takes about as many comparisons as their number has binary digits,
/// whatever the names are.
#[derive(Drop)]
pub struct NameSet<'a> {
    names: BTreeSet<&'a str>,
}

impl<'a> Model for NameSet<'a> {
    ghost use Rattle.std.specs.Prelude.{List, ℕ, map};

    ghost Value = { List (List ℕ) };

    ghost view = { λ s. map (λ n. n.now) s.names.keys };
}

impl<'a> NameSet<'a> {
    /// No name yet.
    pub fn new(alloc: Global) -> NameSet<'a>
        ensures { result ≡ [] }
    {
        NameSet {
            names: BTreeSet::new(alloc),
        }
    }

    /// The names of some texts.
    pub fn of(alloc: Global, texts: &'a [Text]) -> Result<NameSet<'a>, OutOfMemory>
        ensures { IfOk result (λ s. (name : List ℕ) → is_among s name ≡ is_among texts.now name) }
    {
        let mut set = NameSet::new(alloc);
        let mut left = texts;
        'texts: while let Some((text, behind)) = left.split_first() {
            set.put(text.as_str())?;
            left = behind;
        }
        Ok(set)
    }

    /// Whether a name is one of them.
    pub fn has(&self, name: &str) -> bool
        ensures { result ≡ is_among self.now name.now }
    {
        self.names.contains(name)
    }

    /// Puts in a name. Where memory is refused, the names stay.
    pub fn put(&mut self, name: &'a str) -> Result<(), OutOfMemory>
        ensures added { OnOk result ((other : List ℕ) → is_among self.new other ≡ (bytes_eq name.now other || is_among self.old other)) }
        ensures stays { OnErr result (self.new ≡ self.old) }
    {
        let _is_new = self.names.insert(name)?;
        Ok(())
    }
}
