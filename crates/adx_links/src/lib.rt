//! Other hosts that are called and answer: a link as a trait, an adapter over std's sockets, and a fake in memory.
//!
//! A `Link` says what it was asked and answered, and what its starts will do, where it can; a fault is answered only
//! where the link's own count of faults rose. `TcpLink` reports nothing; `MemoryLink` reports all, and fails by a plan.
//!
//! Connections that come from outside, as pairs of a source and a sink. An `Acceptor` gives out the pairs of
//! connections that come, each as new, and gets each back when it was served and closed for its peer. It reports both
//! lists where it can, and a fault is answered only where its own count of faults rose. `MemoryAcceptor` reports all,
//! and fails by a list.
//!
//! Connections that many threads serve, each with a pass of its own. `serve_all` lets workers take pairs from an
//! acceptor, serve each with a pass that was split for it, and give both back, until no more come. What a worker does
//! with a pair is its own; the contract says that each pair that was given back was served by turns of its own, that
//! these are all the turns that were made, in one list, and that no pair is kept. Nothing is said of waiting or order.
//!
//! Uses `adx_units`, `adx_io` and `turnstile`.
#![tactic(auto)]

mod acceptor;
mod hall;
mod intake;
mod left;
mod link;
mod lobby;
mod memory_acceptor;
mod memory_link;
mod peer_sink;
mod planned;
mod serving;
mod shares;
mod tcp_acceptor;
mod tcp_link;
mod worker;

pub use acceptor::Acceptor;
pub use hall::Hall;
pub use intake::Intake;
pub use left::Left;
pub use link::Link;
pub use memory_acceptor::MemoryAcceptor;
pub use memory_link::{MemoryLink, NO_CONTENT};
pub use peer_sink::PeerSink;
pub use planned::Planned;
pub use serving::serve_all;
pub use tcp_acceptor::TcpAcceptor;
pub use tcp_link::{LONGEST_WAIT, TcpLink};
pub use worker::Worker;
