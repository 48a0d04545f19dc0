//! Which addresses a link calls.

use adx_links::{Link, TcpLink};
use bounded_network::{BoundedCalls, Names, OpenCalls, Reach};
use std::net::{IpAddr, Ipv4Addr, OpenListener, SocketAddr, TcpListener};

/// Whether an address that a text is may be called.
fn has(reach: Reach, text: &str, port: u16) -> Option<bool> {
    match text.parse::<IpAddr>() {
        Ok(address) => Some(reach.has(&SocketAddr::from((address, port)))),
        Err(_) => None,
    }
}

#[test]
fn addresses_of_this_machine_and_its_link_are_left_out(rt: HostRuntime) {
    let near = [
        "127.0.0.1",
        "127.9.9.9",
        "0.0.0.0",
        "::",
        "::1",
        "::ffff:127.0.0.1",
        "169.254.169.254",
        "fe80::1",
        "::ffff:169.254.1.1",
    ];
    for text in near {
        assert_eq!(rt; has(Reach::outside(), text, 80), Some(false), "{text}");
        assert_eq!(rt; has(Reach::everywhere(), text, 80), Some(true), "{text}");
    }
    for text in ["10.0.0.1", "192.0.2.7", "2001:db8::1", "128.0.0.1"] {
        assert_eq!(rt; has(Reach::outside(), text, 80), Some(true), "{text}");
    }
}

#[test]
fn a_kind_is_let_in_without_the_port_of_its_own(rt: HostRuntime) {
    let reach = Reach::outside()
        .with(IpAddr::V4(Ipv4Addr::new(127, 0, 0, 5)))
        .without_port(9_300);
    for (text, port, wanted) in [
        ("127.0.0.1", 80, true),
        ("127.0.0.1", 9_300, false),
        ("::1", 9_300, false),
        ("169.254.1.1", 80, false),
        ("192.0.2.7", 9_300, true),
    ] {
        assert_eq!(rt; has(reach, text, port), Some(wanted), "{text}");
    }
}

#[test]
fn a_host_in_brackets_is_its_address(rt: HostRuntime) {
    let names = Names::new(rt.alloc());
    let mut found = [SocketAddr::from((Ipv4Addr::UNSPECIFIED, 0)); 2];
    for (host, wanted) in [
        ("[::1]", "::1"),
        ("127.0.0.1", "127.0.0.1"),
        ("[2001:db8::7]", "2001:db8::7"),
    ] {
        let count = names.look_up(&rt, host, 81, &mut found).unwrap_or(0);
        assert_eq!(rt; count, 1, "{host}");
        assert_eq!(rt; Ok(found[0].ip()), wanted.parse::<IpAddr>(), "{host}");
        assert_eq!(rt; found[0].port(), 81, "{host}");
    }
    assert!(rt; names.look_up(&rt, "[::1", 81, &mut found).is_err());
    assert!(rt; names.look_up(&rt, "", 81, &mut found).is_err());
}

#[test]
fn a_host_beyond_the_reach_is_refused_at_once(rt: HostRuntime) {
    let names = Names::new(rt.alloc());
    let Ok(listener) = TcpListener::bind(&rt, "127.0.0.1:0") else {
        assert!(rt; false, "no port");
        return;
    };
    let port = match listener.local_addr() {
        Ok(address) => address.port(),
        Err(_) => 0,
    };
    assert!(rt; names.is_beyond(&rt, "127.0.0.1", port, Reach::outside()));
    assert!(rt; !names.is_beyond(&rt, "127.0.0.1", port, Reach::everywhere()));
    let Ok(open) = OpenCalls::new(rt.alloc(), 2) else {
        assert!(rt; false, "no memory");
        return;
    };
    let mut out = TcpLink::new(BoundedCalls::new(&rt, &names, Reach::outside(), &open));
    assert!(rt; out.start("127.0.0.1", port).is_err());
    let mut near = TcpLink::new(BoundedCalls::new(&rt, &names, Reach::everywhere(), &open));
    assert!(rt; near.start("127.0.0.1", port).is_ok());
}
