//! The meters of a desk that threads share, shown to readers that wait for nobody.
//!
//! A `Board` is a board of steps beside a pass of the shared desk, whose history it shows. The contracts say that
//! readers are shown the steps of a history that begins with what the publishing pass had seen.
//!
//! A board of a shared desk's meters that many threads publish on, each with a reader of its own. A `SharedBoard`
//! stands behind a lock. Its contract says that a reader that was shown has read the meters of a history which begins
//! with what its pass had seen.
//!
//! The posts of a desk that threads share: its history is followed, and each pending post is tried over one link. A
//! `Mail` is an outbox with its link; a `Mailroom` stands behind a lock and has a pass of the desk too. The contracts
//! say that of the posts of what was followed each is either pending or was settled, once, by a try over the link.
//!
//! Stands on `shared_desk` for the history, on `meter_board` for the steps, and on `outbox` for the posts.
#![tactic(auto)]

mod board;
mod board_names;
mod bringing;
mod calls;
mod mail;
mod mail_names;
mod mailroom;
mod shared_board;

pub use board::Board;
pub use board_names::BoardNames;
pub use mail::Mail;
pub use mail_names::MailNames;
pub use mailroom::Mailroom;
pub use shared_board::SharedBoard;
