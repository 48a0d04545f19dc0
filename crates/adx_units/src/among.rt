//! Names among others.
ghost use Rattle.std.specs.Prelude.{◌≡◌};
ghost use Rattle.std.specs.List.{list_all, list_any};
ghost use Rattle.adx_units.specs.Among.{is_among as is_among_by};

use crate::names::Names;
use crate::text::Text;
use std::alloc::Global;

/// Up to so many names are compared one by one.
pub(crate) const FEW: usize = 16;

/// Whether a name is one of some names.
pub fn is_among(names: &[Text], name: &[u8]) -> bool
    ensures { result ≡ is_among_by names.now name.now }
{
    names.iter().any(|other| other.as_bytes() == name)
}

/// Whether one of the first names is one of the others. Where both are many, memory is taken for the shorter list, and
/// given back; where it is refused, each is compared with each.
pub fn any_among(alloc: Global, names: &[Text], others: &[Text]) -> bool
    ensures { result ≡ list_any (is_among_by others.now) names.now }
{
    if names.len() <= FEW {
        return is_any_of_few_among(names, others);
    }
    if names.len() < others.len() {
        let ready = Names::of(alloc, names);
        return ready.has_any(others);
    }
    let ready = Names::of(alloc, others);
    ready.has_any(names)
}

fn is_any_of_few_among(names: &[Text], others: &[Text]) -> bool
    ensures { result ≡ list_any (is_among_by others.now) names.now }
{
    names.iter().any(|name| is_among(others, name.as_bytes()))
}

/// Whether each of the first names is one of the others. Memory is taken where both are many, and given back; where it
/// is refused, each is compared with each.
pub fn all_among(alloc: Global, names: &[Text], others: &[Text]) -> bool
    ensures { result ≡ list_all (is_among_by others.now) names.now }
{
    if names.len() <= FEW {
        return are_few_among(names, others);
    }
    let ready = Names::of(alloc, others);
    ready.has_all(names)
}

fn are_few_among(names: &[Text], others: &[Text]) -> bool
    ensures { result ≡ list_all (is_among_by others.now) names.now }
{
    names.iter().all(|name| is_among(others, name.as_bytes()))
}
