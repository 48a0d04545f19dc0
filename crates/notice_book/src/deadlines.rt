//! The least deadlines of the open awards.
ghost use Rattle.std.specs.Prelude.{◌≡◌, ◌+◌, ◌-◌, ◌^◌, ◌<◌, ◌≤◌, ◌++◌, [], length, OnOk, count_by, position, replicate, slice_set};
ghost use Rattle.notice_book.specs.Moments.{is_before};

use crate::tree;
use adx_units::OutOfMemory;
use std::alloc::Global;
use std::marker::Model;

/// A moment that never comes.
pub(crate) const NEVER: u64 = 18_446_744_073_709_551_615;

/// Moments by their places. A contract sees the moments.
#[derive(Drop)]
pub(crate) struct Deadlines {
    alloc: Global,
    tree: Vec<u64>,
    levels: u32,
    width: usize,
}

impl Model for Deadlines {
    ghost use Rattle.std.specs.Prelude.{List, drop, ℕ};
    ghost use Rattle.notice_book.specs.Moments.{IsTree};

    ghost Value = { List ℕ };

    ghost view = { λ d. drop d.width d.tree.items };

    ghost invariant = { λ d. IsTree d.tree.items d.levels d.width };
}

impl Deadlines {
    /// No place yet; takes no memory.
    pub(crate) fn new(alloc: Global) -> Deadlines
        ensures { result ≡ [] }
    {
        Deadlines {
            alloc,
            tree: Vec::new(alloc),
            levels: 0,
            width: 0,
        }
    }

    /// The number of places.
    pub(crate) fn len(&self) -> usize
        ensures { result ≡ length self.now }
    {
        self.width
    }

    /// Sets the moment at a place.
    pub(crate) fn set(&mut self, place: usize, moment: u64)
        requires { place < length self.old }
        ensures { self.new ≡ slice_set self.old place moment }
    {
        self.tree[self.width + place] = moment;
        tree::correct(&mut self.tree, self.width, (self.width + place) / 2);
    }

    /// Makes so many places at least; no moment comes at the new ones.
    pub(crate) fn grow(&mut self, places: usize) -> Result<(), OutOfMemory>
        requires { places < 2 ^ 34 }
        ensures enough { OnOk result (places ≤ length self.new) }
        ensures longer { length self.old ≤ length self.new }
        ensures kept { self.new ≡ self.old ++ replicate (length self.new - length self.old) NEVER }
    {
        while self.len() < places {
            self.double()?;
        }
        Ok(())
    }

    /// Makes twice as many places, or one for none.
    fn double(&mut self) -> Result<(), OutOfMemory>
        requires { length self.old < 2 ^ 34 }
        ensures more { OnOk result (length self.old < length self.new) }
        ensures longer { length self.old ≤ length self.new }
        ensures kept { self.new ≡ self.old ++ replicate (length self.new - length self.old) NEVER }
    {
        if self.width == 0 {
            self.tree = tree::sprout(self.alloc)?;
            self.levels = 0;
            self.width = 1;
        } else {
            self.tree = tree::doubled(self.alloc, &self.tree, self.width)?;
            self.levels += 1;
            self.width *= 2;
        }
        Ok(())
    }

    /// The first place whose moment is before that one.
    pub(crate) fn first_before(&self, now: u64) -> Option<usize>
        ensures { result ≡ position (is_before now) self.now }
    {
        if self.width == 0 {
            return None;
        }
        if self.tree[1] >= now {
            return None;
        }
        let leaf = tree::first_leaf(&self.tree, self.levels, self.width, now);
        Some(leaf - self.width)
    }

    /// How many moments are before that one.
    pub(crate) fn count_before(&self, now: u64) -> usize
        ensures { result ≡ count_by (is_before now) self.now }
    {
        if self.width == 0 {
            return 0;
        }
        tree::count_under(&self.tree, self.width, 1, self.levels, now)
    }
}
