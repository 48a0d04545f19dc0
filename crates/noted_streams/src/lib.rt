//! Streams and files that keep the last error which the system reported.
//!
//! A program's sources, sinks and disks answer that they failed, and no more. `Noting` is between them and the system, hands
//! every call on, and keeps the error of one that fails in a place that threads may share (`Told`); `Reason` writes it for a
//! person. Uses `std` alone.
#![tactic(auto)]

mod noting;
mod reason;
mod told;

pub use noting::Noting;
pub use reason::Reason;
pub use told::Told;
