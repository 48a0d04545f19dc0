//! Which hosts aren't called, and for how long.

use bounded_network::{Change, FAILURES, FIRST_REST, Hosts, LONGEST_REST};

const HOST: &str = "n.example";

/// Fails so often at a moment, and gives the last change.
fn failed(hosts: &Hosts, times: u32, now: u64) -> Change {
    let mut change = Change::Same;
    for _ in 0..times {
        change = hosts.failed(HOST, 80, now);
    }
    change
}

#[test]
fn a_host_is_cold_at_its_third_failure_in_a_row(rt: HostRuntime) {
    let hosts = Hosts::new(rt.alloc());
    assert_eq!(rt; hosts.wait(HOST, 80, 0), 0);
    assert_eq!(rt; failed(&hosts, FAILURES - 1, 0), Change::Same);
    assert_eq!(rt; hosts.answered(HOST, 80), Change::Same);
    assert_eq!(rt; failed(&hosts, FAILURES - 1, 0), Change::Same);
    assert_eq!(rt; hosts.wait(HOST, 80, 0), 0);
    assert_eq!(rt; failed(&hosts, 1, 5), Change::Cold);
    assert_eq!(rt; hosts.wait(HOST, 80, 5), FIRST_REST);
    assert_eq!(rt; hosts.wait(HOST, 81, 5), 0);
    assert_eq!(rt; hosts.wait("m.example", 80, 5), 0);
    // Calls that were under way don't make it colder.
    assert_eq!(rt; failed(&hosts, 9, 6), Change::Same);
    assert_eq!(rt; hosts.wait(HOST, 80, 6), FIRST_REST - 1);
}

#[test]
fn one_caller_tries_a_cold_host_and_an_answer_warms_it(rt: HostRuntime) {
    let hosts = Hosts::new(rt.alloc());
    let _ = failed(&hosts, FAILURES, 0);
    assert_eq!(rt; hosts.wait(HOST, 80, FIRST_REST), 0);
    assert!(rt; hosts.wait(HOST, 80, FIRST_REST) > 0);
    assert_eq!(rt; hosts.answered(HOST, 80), Change::Warm);
    assert_eq!(rt; hosts.wait(HOST, 80, FIRST_REST), 0);
    assert_eq!(rt; failed(&hosts, FAILURES - 1, 0), Change::Same);
}

/// How long a host rests after so many tries that fail.
fn rest_after(hosts: &Hosts, tries: u32) -> u64 {
    let _ = failed(hosts, FAILURES, 0);
    let mut now: u64 = FIRST_REST;
    for _ in 0..tries {
        let _ = hosts.wait(HOST, 80, now);
        let _ = hosts.failed(HOST, 80, now);
        now = now.saturating_add(hosts.wait(HOST, 80, now));
    }
    let _ = hosts.wait(HOST, 80, now);
    let _ = hosts.failed(HOST, 80, now);
    hosts.wait(HOST, 80, now)
}

#[test]
fn its_rest_doubles_to_a_minute(rt: HostRuntime) {
    for (tries, rest) in [
        (0, 2_000),
        (1, 4_000),
        (2, 8_000),
        (4, 32_000),
        (5, LONGEST_REST),
        (9, LONGEST_REST),
    ] {
        let hosts = Hosts::new(rt.alloc());
        assert_eq!(rt; rest_after(&hosts, tries), rest, "{tries}");
    }
}
