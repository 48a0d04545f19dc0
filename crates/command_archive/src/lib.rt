//! The commands on the archive of closed days: one keeps the day of a document, and one lists the days of a campaign.
//!
//! `keep_day` checks a record and its certificate as the command that checks them does, and keeps the record's rows
//! only where the certificate is accepted. `list_days_of` writes the kept rows of a campaign in order of day. Either
//! upgrades its keeper first, where it asks anything of it. What a run means and leaves is defined in `specs/Keeps` and
//! `specs/Lists`. It knows no SQL.
//!
//! The archive's rows of a day's record: one for each campaign, with its money and the day's bound. The record may be
//! anybody's: nothing is asked of its money.
//!
//! What the commands on the archive write, and their bodies over any keeper: a day's rows are filed, or a campaign's
//! listed. A body upgrades the keeper, makes its one call, and puts the lines at the end of a text; how the command
//! ends is told, and where the keeper tells its rows, what it made of them. Rows and lines are defined in
//! `specs/Lines`, the courses in `specs/Courses`.
//!
//! Stands on `day_archive` for the keeper, and on `command_check` for the verdict. It knows no SQL.
#![tactic(auto)]

mod file;
mod filing;
mod keep;
mod lines;
mod list;
mod listing;
mod money;
mod outcome;
mod rows;

pub use file::file_day;
pub use filing::Filing;
pub use keep::keep_day;
pub use list::{Query, list_days_of};
pub use listing::list_days;
pub use rows::rows_of;
