//! The archive of past days: what each campaign had, spent and could at best have spent, day by day.
//!
//! A `Keeper` reports its rows, where it can, and then its calls are those of a plain list of rows: a day is put
//! once, a campaign's rows come in order of day, rows from before are moved once. Dates are judged alike by every
//! keeper, and a fault is answered only where the keeper's own count of faults rose. `MemoryKeeper` reports all,
//! and fails by a list.
//!
//! Uses `adx_units`, `adx_io`, `formats` and `jiff`.
#![tactic(auto)]

mod dates;
mod keeper;
mod memory_keeper;
mod refusal;
mod row;

pub use dates::{Unfit, check_day, check_range};
pub use keeper::Keeper;
pub use memory_keeper::MemoryKeeper;
pub use refusal::KeeperRefusal;
pub use row::{DayRow, day_of};
