//! A list of names that many are looked up in.
ghost use Rattle.std.specs.Prelude.{◌≡◌, ℕ, List};
ghost use Rattle.std.specs.List.{list_all, list_any};
ghost use Rattle.std.specs.Option.{ForSome};
ghost use Rattle.adx_units.specs.Among.{is_among as is_among_by};

use crate::among::{FEW, is_among};
use crate::name_set::NameSet;
use crate::text::Text;
use std::alloc::Global;

/// A list of names. Where it is long and memory allows, its names are in a set, too.
#[derive(Drop)]
pub(crate) struct Names<'a> {
    pub texts: &'a [Text],
    pub set: Option<NameSet<'a>>,

    pub ghost same: { ForSome set (λ s. (name : List ℕ) → is_among_by s name ≡ is_among_by texts.now name) },
}

impl<'a> Names<'a> {
    /// The names of a list. Where memory is refused for the set, each name is compared with each.
    pub(crate) fn of(alloc: Global, texts: &'a [Text]) -> Names<'a>
        ensures { result.texts.now ≡ texts.now }
    {
        if texts.len() <= FEW {
            return Names { texts, set: None };
        }
        match NameSet::of(alloc, texts) {
            Ok(set) => Names {
                texts,
                set: Some(set),
            },
            Err(_) => Names { texts, set: None },
        }
    }

    /// Whether a name is one of them.
    pub(crate) fn has(&self, name: &Text) -> bool
        ensures { result ≡ is_among_by self.now.texts.now name.now }
    {
        match &self.set {
            Some(set) => set.has(name.as_str()),
            None => is_among(self.texts, name.as_bytes()),
        }
    }

    /// Whether one of some names is one of them.
    pub(crate) fn has_any(&self, names: &[Text]) -> bool
        ensures { result ≡ list_any (is_among_by self.now.texts.now) names.now }
    {
        names.iter().any(|name| self.has(name))
    }

    /// Whether each of some names is one of them.
    pub(crate) fn has_all(&self, names: &[Text]) -> bool
        ensures { result ≡ list_all (is_among_by self.now.texts.now) names.now }
    {
        names.iter().all(|name| self.has(name))
    }
}
