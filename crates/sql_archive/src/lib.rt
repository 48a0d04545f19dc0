//! The archive over SQL: a `Keeper` whose rows are in the tables of a database, in a file that sqlite3 reads or in
//! memory.
//!
//! Each call is one transaction of a few fixed statements, made through one private type that counts each statement that is
//! refused, as it counts a row that isn't of the form in which rows are put: a call that answers nothing but a fault has met
//! none. The keeper doesn't report its rows: that the statements do what they say rests on the kit's `sqlite` and on tests.
//!
//! The file of an archive of closed days is a database that one process holds at a time. `work_on` does work over a keeper
//! that opens the file at its first call, so that nothing is held while input is read, and closes it. It knows no command.
//!
//! Uses `adx_units`, `adx_io`, `formats`, `day_archive`, `sqlite` and `itoa`.
#![tactic(auto)]

mod broken;
mod counted;
mod days;
mod file_keeper;
mod put;
mod sql_keeper;
mod tables;
mod unopened;
mod work;

pub use file_keeper::Opening;
pub use sql_keeper::SqlKeeper;
pub use unopened::Unopened;
pub use work::{Work, Worked, work_on};
