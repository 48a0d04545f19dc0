//! A link over a network whose calls end in time.

use adx_links::{Link, TcpLink};
use bounded_network::{BoundedCalls, IN_ALL, Names, OpenCalls, Reach, millis};
use std::io;
use std::net::{Net, OpenListener, TcpListener};
use std::time::Clock;

/// How long a link waits for a host that takes a call and is silent, where that is a fault.
fn waited<R: Net + Clock>(
    rt: &R,
    names: &Names,
    open: &OpenCalls<R::Stream>,
) -> io::Result<Option<u64>> {
    let listener = TcpListener::bind(rt, "127.0.0.1:0")?;
    let port = listener.local_addr()?.port();
    let mut link = TcpLink::new(BoundedCalls::new(rt, names, Reach::everywhere(), open));
    let begin = millis(rt);
    if link.start("127.0.0.1", port).is_err() || link.put(b"GET / HTTP/1.1\r\n").is_err() {
        return Ok(None);
    }
    let mut out = [0; 16];
    match link.take(&mut out) {
        Ok(_) => Ok(None),
        Err(_) => Ok(Some(millis(rt).saturating_sub(begin))),
    }
}

#[test]
fn a_silent_host_is_a_fault_in_time(rt: HostRuntime) {
    let names = Names::new(rt.alloc());
    let Ok(open) = OpenCalls::new(rt.alloc(), 1) else {
        assert!(rt; false, "no memory");
        return;
    };
    match waited(&rt, &names, &open) {
        Ok(Some(waited)) => {
            assert!(rt; waited < 4 * IN_ALL, "{waited}");
        }
        Ok(None) | Err(_) => {
            assert!(rt; false, "no fault");
        }
    }
}

#[test]
fn no_host_is_refused_at_once(rt: HostRuntime) {
    let names = Names::new(rt.alloc());
    let Ok(open) = OpenCalls::new(rt.alloc(), 1) else {
        assert!(rt; false, "no memory");
        return;
    };
    let mut link = TcpLink::new(BoundedCalls::new(&rt, &names, Reach::everywhere(), &open));
    assert!(rt; link.start("", 80).is_err());
}
