//! That a list comes back only where 64 waited, and that nothing comes only where nothing waited: the queue's own
//! contract can't say it of a run, so threads that send and one that takes keep counts beside it.
//!
//! What is counted as sent was sent before, so where more is counted as sent than was taken, `next` has to give one. What
//! is counted as begun is all that may wait, so where a list comes back, 64 others were begun and not taken.

ghost use Rattle.std.specs.Prelude.{◌≡◌};

use port::{DrainPass, PortPass, Ports};
use std::alloc::Global;
use std::sync::Wait;
use std::sync::atomic::AtomicU64;
use std::sync::atomic::Ordering::SeqCst;
use std::test::Fail;
use std::thread::{self, Threads};
use test_tools::apart;

/// How many lists each of two threads sends.
const LISTS: u64 = 3_000;

/// How often a thread tries at most.
const TURNS: u64 = 100_000_000;

/// What the threads count, and how often a call answered what these counts belie.
#[derive(Drop)]
struct Tally {
    /// Raised before a list is first offered.
    begun: AtomicU64,
    /// Raised behind each submission.
    sent: AtomicU64,
    /// Raised behind each list that was taken.
    taken: AtomicU64,
    belied: AtomicU64,
}

impl Tally {
    fn new() -> Tally {
        Tally {
            begun: AtomicU64::new(0),
            sent: AtomicU64::new(0),
            taken: AtomicU64::new(0),
            belied: AtomicU64::new(0),
        }
    }

    /// Where this doesn't hold, the threads stop.
    fn expect(&self, holds: bool) {
        if !holds {
            self.belied.fetch_add(1, SeqCst);
        }
    }

    fn is_belied(&self) -> bool {
        self.belied.load(SeqCst) > 0
    }
}

// Offers a list until it is taken over.
fn send_one<R: Wait>(
    rt: &R,
    ports: &Ports<u64, Global>,
    pass: &mut PortPass<u64>,
    list: u64,
    tally: &Tally,
)
    requires { pass.old.queue ≡ ports.now.queue }
    ensures { (pass.new.queue ≡ ports.now.queue) × (pass.new.port ≡ pass.old.port) }
{
    tally.begun.fetch_add(1, SeqCst);
    for _ in 0..TURNS {
        let taken = tally.taken.load(SeqCst);
        if ports.submit(rt, pass, list).is_ok() {
            tally.sent.fetch_add(1, SeqCst);
            return;
        }
        tally.expect(tally.begun.load(SeqCst) >= taken.saturating_add(65));
        if tally.is_belied() {
            return;
        }
        thread::yield_now();
    }
    tally.expect(false);
}

// Sends all lists of one port.
fn send_all<R: Wait>(
    rt: &R,
    ports: &Ports<u64, Global>,
    mut pass: PortPass<u64>,
    tally: &Tally,
) -> PortPass<u64>
    requires { pass.queue ≡ ports.now.queue }
    ensures queue { result.queue ≡ ports.now.queue }
    ensures port { result.port ≡ pass.port }
{
    for list in 0..LISTS {
        send_one(rt, ports, &mut pass, list, tally);
    }
    pass
}

// Takes the lists of both ports.
fn take_all<R: Wait>(
    rt: &R,
    ports: &Ports<u64, Global>,
    mut drain: DrainPass<u64>,
    tally: &Tally,
) -> DrainPass<u64>
    requires { drain.queue ≡ ports.now.queue }
    ensures { result.queue ≡ ports.now.queue }
{
    for _ in 0..TURNS {
        let taken = tally.taken.load(SeqCst);
        if taken >= 2 * LISTS || tally.is_belied() {
            return drain;
        }
        let sent = tally.sent.load(SeqCst);
        if ports.next(rt, &mut drain).is_some() {
            tally.taken.fetch_add(1, SeqCst);
        } else {
            tally.expect(sent <= taken);
            thread::yield_now();
        }
    }
    tally.expect(false);
    drain
}

// Two threads send.
fn send_by_two<R: Threads + Wait + Sync>(
    rt: &R,
    ports: &Ports<u64, Global>,
    one: PortPass<u64>,
    other: PortPass<u64>,
    tally: &Tally,
) -> (PortPass<u64>, PortPass<u64>)
    requires { (one.queue ≡ ports.now.queue) × (other.queue ≡ ports.now.queue) }
    ensures { (result.0.queue ≡ ports.now.queue) × (result.0.port ≡ one.port) × (result.1.queue ≡ ports.now.queue) × (result.1.port ≡ other.port) }
{
    thread::join(
        rt,
        move ||
            requires { one.queue ≡ ports.now.queue }
            ensures { (result.queue ≡ ports.entry.now.queue) × (result.port ≡ one.port) }
        { send_all(rt, ports, one, tally) },
        move ||
            requires { other.queue ≡ ports.now.queue }
            ensures { (result.queue ≡ ports.entry.now.queue) × (result.port ≡ other.port) }
        { send_all(rt, ports, other, tally) },
    )
}

#[test]
fn two_threads_send_and_one_takes(rt: HostRuntime) -> Result<(), Fail> {
    let made = Ports::<u64, Global>::new(rt.alloc())?;
    let passes = made.1;
    let ports = made.0;
    let drain = made.2;
    let (zero, one, two, three) = apart(passes);
    let tally = Tally::new();
    let all = &ports;
    let handle = &rt;
    let counts = &tally;
    let ((zero, one), drain) = thread::join(
        handle,
        move ||
            requires { (zero.queue ≡ all.now.queue) × (one.queue ≡ all.now.queue) }
            ensures { (result.0.queue ≡ all.entry.now.queue) × (result.0.port ≡ zero.port) × (result.1.queue ≡ all.entry.now.queue) × (result.1.port ≡ one.port) }
        { send_by_two(handle, all, zero, one, counts) },
        move ||
            requires { drain.queue ≡ all.now.queue }
            ensures { result.queue ≡ all.entry.now.queue }
        { take_all(handle, all, drain, counts) },
    );
    let settled = ports.settle([zero, one, two, three], drain);
    assert!(rt; settled.ok() == Some([LISTS, LISTS, 0, 0]));
    assert!(rt; tally.belied.load(SeqCst) == 0);
    Ok(())
}
