//! The best offer so far while the offers of an impression are gone through.
ghost use Rattle.std.specs.Prelude.{◌≡◌, None};
ghost use Rattle.allocator_core.specs.Passes.{best_with};

/// The place of the best offer so far and its weight.
#[derive(Clone, Copy)]
pub(crate) struct Best {
    pub(crate) place: Option<usize>,
    pub(crate) weight: u128,
}

impl Best {
    /// No offer yet.
    pub(crate) fn new() -> Best
        ensures { result.place ≡ None }
    {
        Best {
            place: None,
            weight: 0,
        }
    }

    /// The best with the offer at a place considered, where it has a weight: of equal ones the first
    /// stays.
    pub(crate) fn with(self, place: usize, weight: Option<u128>) -> Best
        ensures { result ≡ best_with self place weight }
    {
        match weight {
            Some(weight) => {
                if self.place.is_none() || self.weight < weight {
                    Best {
                        place: Some(place),
                        weight,
                    }
                } else {
                    self
                }
            }
            None => self,
        }
    }
}
