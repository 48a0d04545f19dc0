//! The heads of HTTP/1.1 messages as functions of bytes.
//!
//! `request_parts` and `response_parts` say what a head says, or the first test that it fails: the
//! grammar of `httparse`, the host, how the body is framed, its coding, a missing length, and the
//! length against the limit. A contract speaks of the head's fields, and of no offset but a target's.
//! Uses `httparse` and `memchr`.
#![tactic(auto)]

mod fault;
mod fields;
mod framing;
mod heads;
mod host;
mod judge;
mod lengths;
mod parts;
mod verb;
mod words;

pub use fault::HttpFault;
pub use framing::Framing;
pub use host::is_host_value;
pub use parts::{
    FirstRequest, RequestParts, ResponseParts, first_request, request_parts, response_parts,
};
pub use verb::Verb;
