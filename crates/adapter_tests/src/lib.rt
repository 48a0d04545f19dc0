//! Tests of what no program over files shows: what `adx_io` makes of a real file and of sockets, what the disk of a day that
//! nobody keeps leaves in memory, and what `bounded_network` makes of hosts: those that fail, one that is silent, names
//! that aren't found, which addresses are called, and what is hung up where no descriptor is left.
//!
//! It is tests alone, over the public calls of `adx_io`, `adx_links` and `bounded_network`.
#![tactic(auto)]

#[cfg(test)]
mod adapters;
#[cfg(test)]
mod cold_hosts;
#[cfg(test)]
mod disks;
#[cfg(test)]
mod hung_up;
#[cfg(test)]
mod missing;
#[cfg(test)]
mod reached;
#[cfg(test)]
mod silent;
