//! A network whose calls end in time, for links and for acceptors.
//!
//! `BoundedCalls` is the network of a link: a call ends in time whatever bytes its host sends, names are looked up once (`Names`),
//! and addresses of this machine may be left out (`Reach`). `OpenCalls` has what the links of a run have connected: where no
//! descriptor is left, it hangs up what belongs to calls that are over. `Hosts` keeps which hosts failed lately, and for how long they aren't
//! called. `Listening` and its `BoundedAccepts` are the network of an acceptor: a connection ends that is idle for too long, or
//! while no worker is free, or whose message takes too long; a file of a given name ends the taking of connections. Their
//! contracts are those of the kit's traits, which say nothing of time. It uses `adx_units`.
#![tactic(auto)]

mod calls;
mod connection;
mod hosts;
mod listening;
mod locked;
mod names;
mod open_calls;
mod reach;
mod times;

pub use calls::{BoundedCalls, CallListener, CallStream, IN_ALL};
pub use connection::{Connection, LONGEST_IDLE, LONGEST_MESSAGE, LONGEST_WRITE};
pub use hosts::{Change, FAILURES, FIRST_REST, Hosts, LONGEST_REST, MOST_HOSTS};
pub use listening::{AcceptedListener, BoundedAccepts, Listening, SLICE, Waited, with_slices};
pub use names::{FIRST_MISSING, LONGEST_MISSING, MOST_NAMES, Names};
pub use open_calls::OpenCalls;
pub use reach::Reach;
pub use times::millis;
