//! Which addresses a link may call.
ghost use Rattle.std.specs.Prelude.{◌≡◌, ◌≢◌, ◌⊎◌, ◌↔◌, Some, None, IsTrue};
ghost use Rattle.std.specs.Net.Socket.{socket_ip, socket_port};
ghost use Rattle.bounded_network.specs.Reach.{IsHere, IsOnLink, IsOutside, AreAlike, HasMachine, HasLink, left_out, Has, IsLeftOut, IsHereAt};

use std::net::{IpAddr, SocketAddr};

/// Which addresses a link may call. An address of this machine is one of 127.0.0.0/8, `::1`, `0.0.0.0` or `::`; an address of its
/// link is one of 169.254.0.0/16 or fe80::/10. An IPv4 address within an IPv6 address counts as the IPv4 address.
#[derive(Clone, Copy, Debug, PartialEq, Eq)]
pub struct Reach {
    /// Addresses of this machine.
    machine: bool,
    /// Addresses of this machine's link.
    link: bool,
    /// The port of this machine that isn't called in any case.
    own: Option<u16>,
}

/// Whether an address is one of this machine.
fn is_here(address: IpAddr) -> bool
    ensures { IsTrue result ↔ IsHere address }
{
    let address = address.to_canonical();
    address.is_loopback() || address.is_unspecified()
}

/// Whether an address is one of this machine's link.
fn is_on_link(address: IpAddr) -> bool
    ensures { IsTrue result ↔ IsOnLink address }
{
    match address.to_canonical() {
        IpAddr::V4(address) => address.is_link_local(),
        IpAddr::V6(address) => address.is_unicast_link_local(),
    }
}

impl Reach {
    /// Every address.
    pub fn everywhere() -> Reach
        ensures all { (a : SocketAddr) → Has result a }
        ensures machine { HasMachine result }
        ensures link { HasLink result }
        ensures port { left_out result ≡ None }
    {
        Reach {
            machine: true,
            link: true,
            own: None,
        }
    }

    /// No address of this machine or of its link.
    pub fn outside() -> Reach
        ensures all { (a : SocketAddr) → Has result a ↔ IsOutside (socket_ip a) }
        ensures machine { ¬ (HasMachine result) }
        ensures link { ¬ (HasLink result) }
        ensures port { left_out result ≡ None }
    {
        Reach {
            machine: false,
            link: false,
            own: None,
        }
    }

    /// These addresses, and all of the kind that this one is of.
    pub fn with(self, address: IpAddr) -> Reach
        ensures machine { HasMachine result ↔ (HasMachine self ⊎ IsHere address) }
        ensures link { HasLink result ↔ (HasLink self ⊎ IsOnLink address) }
        ensures port { left_out result ≡ left_out self }
        ensures had { (a : SocketAddr) → Has self a → Has result a }
        ensures alike { (a : SocketAddr) → AreAlike address (socket_ip a) → ¬ (IsLeftOut self a) → Has result a }
        ensures only { (a : SocketAddr) → Has result a → ¬ (AreAlike address (socket_ip a)) → Has self a }
    {
        Reach {
            machine: self.machine || is_here(address),
            link: self.link || is_on_link(address),
            own: self.own,
        }
    }

    /// These addresses, without a port of this machine.
    pub fn without_port(self, port: u16) -> Reach
        ensures machine { HasMachine result ↔ HasMachine self }
        ensures link { HasLink result ↔ HasLink self }
        ensures port { left_out result ≡ Some port }
        ensures gone { (a : SocketAddr) → IsHereAt port a → ¬ (Has result a) }
        ensures had { (a : SocketAddr) → Has self a → ¬ (IsHereAt port a) → Has result a }
        ensures only { (a : SocketAddr) → Has result a → ¬ (IsLeftOut self a) → Has self a }
    {
        Reach {
            machine: self.machine,
            link: self.link,
            own: Some(port),
        }
    }

    /// Whether an address may be called.
    pub fn has(&self, address: &SocketAddr) -> bool
        ensures { IsTrue result ↔ Has self.now address.now }
    {
        let ip = address.ip();
        let on_machine = self.machine && self.own != Some(address.port());
        (!is_here(ip) || on_machine) && (!is_on_link(ip) || self.link)
    }
}
