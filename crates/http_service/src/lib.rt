//! HTTP/1.1 messages that are served one after another on a connection.
//!
//! `serve_messages` reads the messages of a source and puts what a service answers to each into a sink before it reads
//! the next. A contract names the messages, what they were replied, the state that the service is left in, and why no
//! more were read; it speaks of any service, whose answers are a relation of its own.
//!
//! What a connection means as a run: its replies, by the bytes that came. `specs/Connections` has the meaning of a run
//! that serves a connection, after what it read before; `result_of` is how such a run ends by the end of its
//! connection.
//!
//! Uses `adx_units`, `adx_io`, `adx_json`, `http_connection`, `http_grammar`, `adx_http`, `httparse` and
//! `command_runs`.
#![tactic(auto)]

mod answer;
mod bodies;
mod ends;
mod limits;
mod refusal;
mod reply;
mod service;
mod serving;

pub use answer::{Answer, Methods};
pub use bodies::{disallowed, plain, push_body, push_refused};
pub use ends::result_of;
pub use limits::{MESSAGE_LIMIT, REQUEST_LIMIT};
pub use refusal::write_refusal;
pub use reply::{asks_no_body, write_answer};
pub use service::Service;
pub use serving::serve_messages;
