//! Commands over the day of a roster.
//!
//! `run_on_roster` reads a roster's line and runs a command that is `OnRoster` over the rest of its input, on a disk.
//!
//! `run_history` reads a roster's line and the rest of its input, opens the roster's day on a disk, and prints what a
//! `Print` makes of the day's history. The disk stands for the history afterwards. It knows nothing that is printed.
//!
//! What a day of script lines says. Its definitions say what a line means and how it is answered, and what closes a
//! script. `push_unopened` writes why a day can't be opened on its disk; its contract gives these bytes. It knows no words
//! of a command and no exit status.
//!
//! Uses `command_runs` for a run, `adx_desk` for the day, and that and `script_lines` for lines.
#![tactic(auto)]

mod history;
mod on_roster;
mod opening;
mod roster;
mod unopened_lines;

pub use history::{Print, run_history};
pub use on_roster::{OnRoster, run_on_roster};
pub use opening::{tell_unopened, unopened_outcome};
pub use roster::{push_roster_lack, roster_of};
pub use unopened_lines::push_unopened;
