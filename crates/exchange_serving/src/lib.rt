//! The connections of an acceptor, served by many threads on one desk.
//!
//! `serve_connections` lets workers serve connections at the same time on one desk
//! that they share, and tries the posts of its history after each connection. Its contract says that all pairs were
//! given back, what each was replied and by which turns, that these turns made the history that the disk represents,
//! which posts were delivered, and what is given back where no desk is left for lack of memory.
//!
//! The exchange on a connection, on a desk that threads share. `serve_shared` serves a connection as `exchange_http`
//! does, by a pass of a shared desk: its contract names the messages, the steps that they made by the pass, what each
//! was replied by the history of its own steps, and why no more were read. `serve_gathering` does so too, and is given
//! how bidders are asked.
//!
//! Uses `adx_links` for connections and the threads, `exchange_http` for a connection, and `desk_board` for
//! board and posts.
#![tactic(auto)]

mod beginning;
mod board_desk;
mod ending;
mod finishing_up;
mod gathering;
mod leaving;
mod names;
mod round;
mod serving;
mod sharing;
mod showing;
mod talking;
mod whole;
mod worker;

pub use ending::Ending;
pub use leaving::{Served, Unserved};
pub use serving::serve_connections;
pub use sharing::{serve_gathering, serve_shared};
