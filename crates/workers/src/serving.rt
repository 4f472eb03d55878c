//! The threads that work for two crews.
//!
//! The thread of worker 1 starts with the crews. That of worker w, once it takes a part of a run, starts those of workers 2 w and
//! 2 w + 1, where the run is for so many. So threads start side by side, and what is over soon, or touches few tiles, starts few
//! of them or none.

ghost use Rattle.std.specs.Prelude.{◌<◌, ◌≤◌};
ghost use Rattle.workers.specs.Crossing.{MayCross};

use crate::bell::Bells;
use crate::crew::Crew;
use crate::gates::Gate;
use crate::mailbox::Mailbox;
use crate::offers::{Offer, from_place, work};
use std::alloc::Allocator;
use std::sync::Wait;
use std::thread;
use std::thread::{Scope, Threads};
use tilecore::TileJob;

// How often a thread spins for a call before it sleeps, where it has a processor of its own: some 20 microseconds.
const SPINS_BEFORE_SLEEP: u32 = 400;

// The mailboxes of a crew.
type Mailboxes<'s, 'a, J, A> = &'s [Mailbox<'a, Offer<'a, J, A>>];

// What a worker's thread works with. The first mailbox of each crew is its own, and the others are those of the workers behind it.
#[derive(Drop)]
struct ThreadSetup<'s, 'a, E, J: TileJob + Drop, K: TileJob + Drop, A: Allocator, R, G> {
    rt: &'s R,
    scope: &'s Scope<'s, E>,
    bells: &'s Bells,
    first: Mailboxes<'s, 'a, J, A>,
    second: Mailboxes<'s, 'a, K, A>,
    worker: u32,
    spins: u32,
    gate: &'s G,
}

// Takes the offer that lies in the first of the mailboxes.
fn take<'a, T: Drop, R: Wait>(rt: &R, mailboxes: &[Mailbox<'a, T>]) -> Option<T> {
    match mailboxes.first() {
        Some(mailbox) => mailbox.take(rt),
        None => None,
    }
}

// Works on an offer, where there is one.
fn work_on<'a, J: TileJob + Drop, A: Allocator, G: Gate, R: Wait>(
    rt: &R,
    mailboxes: &[Mailbox<'a, Offer<'a, J, A>>],
    offer: Option<Offer<'a, J, A>>,
    worker: u32,
    gate: &G,
) {
    if let Some(offer) = offer {
        work(rt, mailboxes, offer, worker, gate);
    }
}

// Starts the thread of a worker, if one starts.
#[cycle(threads)]
fn start<
    's,
    'a: 's,
    E,
    J: TileJob + Drop + Send + Sync + 's,
    K: TileJob + Drop + Send + Sync + 's,
    A: Allocator + Send + Sync + 's,
    G: Gate + Sync + 's,
    R: Threads + Wait + Sync + 's,
>(setup: ThreadSetup<'s, 'a, E, J, K, A, R, G>)
    requires cross { MayCross J.row J.Open.row J.Done.row K.row K.Open.row K.Done.row A.row R.row G.row A.Allocator }
    requires worker { (0 < setup.worker) × (setup.worker ≤ 15) }
{
    let scope = setup.scope;
    let _ = scope.spawn(
        move || -> ()
            requires cross { MayCross J.row J.Open.row J.Done.row K.row K.Open.row K.Done.row A.row R.row G.row A.Allocator }
            requires worker { (0 < setup.worker) × (setup.worker ≤ 15) }
        { serve(setup) },
    );
}

// Starts the two threads behind a worker's, from the next one on, as far as a run was for so many workers. It gives the one that
// is next then.
#[cycle(threads)]
fn start_behind<
    's,
    'a: 's,
    E,
    J: TileJob + Drop + Send + Sync + 's,
    K: TileJob + Drop + Send + Sync + 's,
    A: Allocator + Send + Sync + 's,
    G: Gate + Sync + 's,
    R: Threads + Wait + Sync + 's,
>(setup: &ThreadSetup<'s, 'a, E, J, K, A, R, G>, next: u32) -> u32
    requires cross { MayCross J.row J.Open.row J.Done.row K.row K.Open.row K.Done.row A.row R.row G.row A.Allocator }
    requires worker { (setup.now.worker < next) × (setup.now.worker ≤ 15) }
    ensures { next ≤ result }
{
    let last = setup.bells.asked().min(2 * setup.worker + 1);
    for worker in next..last + 1 {
        let behind = worker - setup.worker;
        start(ThreadSetup {
            first: from_place(setup.first, behind),
            second: from_place(setup.second, behind),
            worker,
            ..*setup
        });
    }
    next.max(last + 1)
}

// Takes what is offered to a thread until the bells are closed.
#[cycle(threads)]
fn serve<
    's,
    'a: 's,
    E,
    J: TileJob + Drop + Send + Sync + 's,
    K: TileJob + Drop + Send + Sync + 's,
    A: Allocator + Send + Sync + 's,
    G: Gate + Sync + 's,
    R: Threads + Wait + Sync + 's,
>(setup: ThreadSetup<'s, 'a, E, J, K, A, R, G>)
    requires cross { MayCross J.row J.Open.row J.Done.row K.row K.Open.row K.Done.row A.row R.row G.row A.Allocator }
    requires worker { (0 < setup.worker) × (setup.worker ≤ 15) }
{
    let Some(mailbox) = setup.first.first() else {
        return;
    };
    let bell = mailbox.bell();
    let mut next = 2 * setup.worker;
    for _ in setup.rt.forever() {
        if !bell.wait(setup.rt, setup.spins) {
            return;
        }
        let one = take(setup.rt, setup.first);
        let other = take(setup.rt, setup.second);
        if one.is_some() || other.is_some() {
            next = start_behind(&setup, next);
        }
        work_on(setup.rt, setup.first, one, setup.worker, setup.gate);
        work_on(setup.rt, setup.second, other, setup.worker, setup.gate);
    }
}

// How often threads spin before they sleep: where there are fewer processors than threads, the caller needs theirs.
fn spins_for<R: Threads>(rt: &R, workers: u32) -> u32 {
    match thread::available_parallelism(rt) {
        Ok(processors) if processors.get() > workers as usize => SPINS_BEFORE_SLEEP,
        _ => 0,
    }
}

/// Starts the first thread of two crews over the same bells, where they have one. It starts the others as runs ask for them, as far
/// as threads start.
pub fn start_crews<
    's,
    'a: 's,
    E,
    J: TileJob + Drop + Send + Sync + 's,
    K: TileJob + Drop + Send + Sync + 's,
    A: Allocator + Send + Sync + 's,
    G: Gate + Sync + 's,
    R: Threads + Wait + Sync + 's,
>(
    rt: &'s R,
    scope: &'s Scope<'s, E>,
    first: &'s Crew<'a, J, A>,
    second: &'s Crew<'a, K, A>,
    gate: &'s G,
) {
    if first.workers() == 0 {
        return;
    }
    start(ThreadSetup {
        rt,
        scope,
        bells: first.bells(),
        first: first.mailboxes(),
        second: second.mailboxes(),
        worker: 1,
        spins: spins_for(rt, first.workers()),
        gate,
    });
}
