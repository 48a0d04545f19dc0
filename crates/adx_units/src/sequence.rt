//! Lists whose length no longer changes.

ghost use Rattle.std.specs.Prelude.{◌≡◌, ◌↔◌, [], List, length, IsTrue};

use std::marker::Model;

/// A list whose length no longer changes. A contract sees its items, and no capacity.
#[derive(Debug, Drop)]
pub struct Sequence<T> {
    items: Vec<T>,
}

impl<T> Model for Sequence<T> {
    ghost use Rattle.std.specs.Prelude.{List};

    ghost Value = { List T };

    ghost view = { λ s. s.items.items };
}

impl<T> Sequence<T> {
    /// The items in their order.
    pub fn as_slice(&self) -> &[T]
        ensures { result.now ≡ self.now }
    {
        self.items.as_slice()
    }

    /// How many items there are.
    pub fn len(&self) -> usize
        ensures { result ≡ length self.now }
    {
        self.items.len()
    }

    /// Whether there is no item.
    pub fn is_empty(&self) -> bool
        ensures { IsTrue result ↔ (self.now ≡ []) }
    {
        self.items.is_empty()
    }

    /// The items as a vector, without memory.
    pub fn into_vec(self) -> Vec<T>
        ensures { result.items ≡ self }
    {
        self.items
    }
}

impl<T> From<Vec<T>> for Sequence<T> {
    ghost use Rattle.std.specs.Prelude.{◌≡◌};

    ghost from_gives = { λ v s. s ≡ v.items };

    fn from(items: Vec<T>) -> Sequence<T> {
        Sequence { items }
    }
}
