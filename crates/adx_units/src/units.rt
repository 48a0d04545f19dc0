//! The unit of money.

/// An amount of money in units of one millionth of a CPM dollar, which is 10^-9 dollar for one
/// impression. A price of 2.5 is 2,500,000 units, and one dollar of budget is 10^9 units.
#[derive(Clone, Copy, Debug, PartialEq, Eq, PartialOrd, Ord, Hash)]
pub struct Units(pub u64);
