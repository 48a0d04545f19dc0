//! Two and four threads at one turnstile: every item stands once, and each thread's own in its own order.
ghost use Rattle.std.specs.Prelude.{◌≡◌};
ghost use Rattle.std.specs.Thread.{IsSync};
ghost use Rattle.turnstile.specs.Passes.{IsOf, IsSamePass};

use crate::tally::{Add, Tally, opened};
use std::sync::Wait;
use std::test::Fail;
use std::thread::{Threads, join};
use turnstile::{Pass, Turnstile};

/// How many jobs each thread runs.
const JOBS: u64 = 10_000;

/// The first item of a thread is its number times this.
const FAR: u64 = 1_000_000;

/// Runs the jobs of one pass, from this item on.
fn add_all<R: Wait>(
    rt: &R,
    turnstile: &Turnstile<Tally>,
    mut pass: Pass<Tally>,
    from: u64,
) -> Pass<Tally>
    requires { IsOf pass turnstile.now }
    ensures { IsSamePass pass result }
{
    for k in 0..JOBS {
        let mut job = Add::of(from.wrapping_add(k));
        turnstile.turn(rt, &mut pass, &mut job, &mut ());
    }
    pass
}

/// Runs the jobs of two passes in threads of their own.
fn both<R: Wait + Threads + Sync>(
    rt: &R,
    turnstile: &Turnstile<Tally>,
    one: Pass<Tally>,
    other: Pass<Tally>,
    from: u64,
) -> (Pass<Tally>, Pass<Tally>)
    requires one { IsOf one turnstile.now }
    requires other { IsOf other turnstile.now }
    ensures one { IsSamePass one result.0 }
    ensures other { IsSamePass other result.1 }
{
    join(
        rt,
        move || -> Pass<Tally>
            requires { IsSync R.row × (IsOf one turnstile.now) }
            ensures { IsSamePass one result }
        { add_all(rt, turnstile, one, from) },
        move || -> Pass<Tally>
            requires { IsSync R.row × (IsOf other turnstile.now) }
            ensures { IsSamePass other result }
        { add_all(rt, turnstile, other, from.wrapping_add(FAR)) },
    )
}

/// Whether each of so many threads' items stands once, in the thread's own order.
fn are_in_order(items: &[u64], threads: usize, jobs: u64) -> bool {
    let mut next = [0; 4];
    for item in items {
        let thread = (item / FAR) as usize;
        if thread >= threads || thread >= 4 || item % FAR != next[thread] {
            return false;
        }
        next[thread] = (item % FAR) + 1;
    }
    next.iter().take(threads).all(|n| *n == jobs)
}

#[test]
fn two_threads_meet(rt: HostRuntime) -> Result<(), Fail> {
    let (turnstile, mut first) = opened(rt.alloc())?;
    let second = turnstile.split(&mut first)?;
    let (mut first, mut second) = both(&rt, &turnstile, first, second, 0);
    assert!(rt; turnstile.meet(&mut first, &mut second).is_ok());
    assert_eq!(rt; turnstile.front(&mut first), 2 * JOBS);
    assert_eq!(rt; turnstile.front(&mut second), 2 * JOBS);
    let (mut first, second) = both(&rt, &turnstile, first, second, JOBS);
    turnstile.join(&mut first, second);
    let tally = turnstile.close(first);
    assert!(rt; are_in_order(tally.items.as_slice(), 2, 2 * JOBS));
    Ok(())
}

#[test]
fn four_threads(rt: HostRuntime) -> Result<(), Fail> {
    let (turnstile, mut first) = opened(rt.alloc())?;
    let second = turnstile.split(&mut first)?;
    let third = turnstile.split(&mut first)?;
    let fourth = turnstile.split(&mut first)?;
    let (shared, runtime) = (&turnstile, &rt);
    let ((mut first, second), (third, fourth)) = join(
        runtime,
        move || -> (Pass<Tally>, Pass<Tally>)
            requires { (IsOf first shared.now) × (IsOf second shared.now) }
            ensures { IsSamePass first result.0 × IsSamePass second result.1 }
        { both(runtime, shared, first, second, 0) },
        move || -> (Pass<Tally>, Pass<Tally>)
            requires { (IsOf third shared.now) × (IsOf fourth shared.now) }
            ensures { IsSamePass third result.0 × IsSamePass fourth result.1 }
        { both(runtime, shared, third, fourth, 2 * FAR) },
    );
    turnstile.join(&mut first, second);
    turnstile.join(&mut first, third);
    turnstile.join(&mut first, fourth);
    assert_eq!(rt; turnstile.front(&mut first), 4 * JOBS);
    let tally = turnstile.close(first);
    assert!(rt; are_in_order(tally.items.as_slice(), 4, JOBS));
    Ok(())
}
