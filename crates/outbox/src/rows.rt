//! What an outbox keeps of awards, by their numbers.
ghost use Rattle.std.specs.Prelude.{◌≡◌, ◌^◌, ◌<◌, ◌∷◌, ◌++◌, nat_lt, if◌then◌else◌, IfOk, OnOk, OnErr, [], length, option_copied};
ghost use Rattle.std.specs.Ordering.{nat_cmp};
ghost use Rattle.std.specs.List.Sorted.{IsStrictlySortedBy};
ghost use Rattle.std.specs.Map.{keys_of};
ghost use Rattle.outbox.specs.Following.{row_in};
ghost use Rattle.outbox.specs.Keeping.{Ends, EndsAll, IsBilled, IsForgotten, IsMade, IsMadeAt, IsPartOf, IsWon, due_numbers};

use crate::row::Row;
use adx_units::OutOfMemory;
use std::alloc::Global;
use std::collections::BTreeMap;
use std::marker::Model;

/// The rows of awards that may still give a post, and the deadlines of those that are open.
#[derive(Drop)]
pub struct Rows {
    rows: BTreeMap<u64, Row>,
    open_until: BTreeMap<u64, u64>,
}

impl Model for Rows {
    ghost use Rattle.outbox.specs.Following.{RowsState};

    ghost Value = { RowsState };

    ghost view = { λ r. record { rows = r.rows.entries; deadlines = r.open_until.entries } };
}

/// Adds a number whose deadline is before a moment.
fn push_due(numbers: &mut Vec<u64>, n: u64, deadline: u64, now: u64) -> Result<(), OutOfMemory>
    ensures { OnOk result (numbers.new.items ≡ numbers.old.items ++ (if nat_lt deadline now then n ∷ [] else [])) }
{
    if deadline < now {
        numbers.push(n)?;
    }
    Ok(())
}

impl Rows {
    /// Nothing is kept yet; takes no memory.
    pub(crate) fn new(alloc: Global) -> Rows
        ensures rows { result.rows ≡ [] }
        ensures deadlines { result.deadlines ≡ [] }
    {
        Rows {
            rows: BTreeMap::new(alloc),
            open_until: BTreeMap::new(alloc),
        }
    }

    /// What is kept of an award.
    pub(crate) fn get(&self, n: u64) -> Option<&Row>
        ensures { option_copied result ≡ row_in self.now n }
    {
        self.rows.get(&n)
    }

    /// How many rows there are.
    pub(crate) fn len(&self) -> usize
        ensures { result ≡ length self.now.rows }
    {
        self.rows.len()
    }

    /// Nothing more can come of an award.
    pub(crate) fn end(&mut self, n: u64)
        ensures { Ends n self.old self.new }
    {
        let _row = self.rows.remove(&n);
        let _deadline = self.open_until.remove(&n);
    }

    /// Nothing more can come of any of these awards.
    pub(crate) fn end_all(&mut self, numbers: &[u64])
        ensures { EndsAll numbers.now self.old self.new }
    {
        for n in numbers {
            self.end(*n);
        }
    }

    /// The win of an award was counted.
    pub(crate) fn win(&mut self, n: u64)
        ensures { IsWon n self.old self.new }
    {
        let is_open = self.open_until.contains_key(&n);
        if let Some(row) = self.rows.get_mut(&n) {
            if is_open && row.may_be_ended() {
                row.won = true;
                return;
            }
        }
        self.end(n);
    }

    /// The bill of an award was counted.
    pub(crate) fn bill(&mut self, n: u64)
        ensures { IsBilled n self.old self.new }
    {
        let _deadline = self.open_until.remove(&n);
        let stays = match self.rows.get(&n) {
            None => false,
            Some(row) => row.may_be_told(),
        };
        if !stays {
            let _row = self.rows.remove(&n);
        }
    }

    /// The numbers of the open awards whose deadlines, in seconds, are before a moment, in order.
    pub(crate) fn due(&self, alloc: Global, now: u64) -> Result<Vec<u64>, OutOfMemory>
        ensures numbers { IfOk result (λ v. v.items ≡ due_numbers now self.now.deadlines) }
        ensures ordered { IsStrictlySortedBy nat_cmp (keys_of self.now.deadlines) }
    {
        let mut numbers = Vec::new(alloc);
        for (n, deadline) in &self.open_until {
            push_due(&mut numbers, *n, *deadline, now)?;
        }
        Ok(numbers)
    }

    /// Keeps new awards, numbered from `first` on. Where memory is wanting nothing is kept from `first` on.
    pub(crate) fn make(&mut self, first: u64, made: Vec<Row>) -> Result<(), OutOfMemory>
        requires { first < 2 ^ 32 }
        ensures made { OnOk result (IsMade first made.items self.old self.new) }
        ensures forgotten { OnErr result (IsForgotten first self.old self.new) }
    {
        match self.make_all(first, made) {
            Ok(()) => Ok(()),
            Err(wanting) => {
                self.forget(first);
                Err(wanting)
            }
        }
    }

    /// Keeps new awards, numbered from `first` on; some of them where memory is wanting.
    fn make_all(&mut self, first: u64, made: Vec<Row>) -> Result<(), OutOfMemory>
        requires { first < 2 ^ 32 }
        ensures made { OnOk result (IsMade first made.items self.old self.new) }
        ensures part { IsPartOf first self.old self.new }
    {
        let mut left = made;
        'rows: while let Some(row) = left.pop() {
            self.make_one(first + left.as_slice().len() as u64, row)?;
        }
        Ok(())
    }

    /// Keeps a new award, where a post of it may come.
    fn make_one(&mut self, n: u64, row: Row) -> Result<(), OutOfMemory>
        ensures made { OnOk result (IsMadeAt n row self.old self.new) }
        ensures part { IsPartOf n self.old self.new }
    {
        if row.may_be_ended() || row.may_be_told() {
            self.open_until.insert(n, row.deadline)?;
            self.rows.insert(n, row)?;
        }
        Ok(())
    }

    /// Gives up what is kept from a number on.
    fn forget(&mut self, first: u64)
        ensures { IsForgotten first self.old self.new }
    {
        self.rows.retain(|n, _row| *n < first);
        self.open_until.retain(|n, _deadline| *n < first);
    }
}
