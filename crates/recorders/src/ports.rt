//! The ports of a scene's recorders: opened before the threads start, settled when all are joined.

ghost use Rattle.std.specs.Prelude.{◌≡◌, ◌<◌, ℕ, List, Option, IfOk, MatchOption};
ghost use Rattle.scenetext.specs.Scene.{Line as PlainLine};
ghost use Rattle.recorders.specs.Receiving.{AreNew, AreResults, TakenAgrees, AreBack};
ghost use Rattle.recorders.specs.Ending.{AreRecorded, EndsLack};

use crate::refusal::{RecordingEnd, RefusedLine, first_refused};
use cmdlist::CommandList;
use port::{DrainPass, PortPass, Ports};
use std::alloc::{AllocError, Allocator};
use std::sync::Wait;

/// A finished list with the context that recorded it, 0 to 7, and how many lists that context had finished before.
#[derive(Drop)]
pub struct Recorded<L> {
    pub context: u32,
    pub number: u64,
    pub list: L,
}

pub type RecordedList<A> = Recorded<CommandList<A>>;

/// The ports by which recorders send lists.
pub type ListPorts<A> = Ports<Recorded<CommandList<A>>, A>;

/// The right of one recorder to send.
pub type ListPass<A> = PortPass<Recorded<CommandList<A>>>;

/// One value for each of the four ports.
#[derive(Drop)]
pub struct ByPort<T>(pub(crate) T, pub(crate) T, pub(crate) T, pub(crate) T);

/// The rights to send, one for each recorder, and the caller's right to take.
#[derive(Drop)]
pub struct Passes<A: Allocator> {
    pub(crate) recorders: ByPort<ListPass<A>>,
    pub(crate) drain: DrainPass<RecordedList<A>>,
}

/// What the four joined recorders hand over, their passes and how their contexts ended, and the caller's right to take.
#[derive(Drop)]
pub struct Returned<A: Allocator> {
    pub(crate) passes: ByPort<ListPass<A>>,
    pub(crate) ends: [RecordingEnd; 4],
    pub(crate) drain: DrainPass<RecordedList<A>>,
}

/// Makes the ports by which recorders submit their lists, and the passes, by which nothing was sent or taken.
pub fn open_ports<A: Allocator + Copy>(alloc: A) -> Result<(ListPorts<A>, Passes<A>), AllocError>
    ensures { IfOk result (λ opened. AreNew opened.0.queue opened.1) }
{
    let made = Ports::new(alloc).or(Err(AllocError))?;
    let [zero, one, two, three] = made.1;
    let recorders = ByPort(zero, one, two, three);
    let drain = made.2;
    Ok((made.0, Passes { recorders, drain }))
}

/// Takes out what nobody asked for, settles the ports of joined recorders, and answers the first line that a deferred
/// context refused. A list that was missing is not finished before it.
pub fn settle<A: Allocator, R: Wait>(
    rt: &R,
    ports: ListPorts<A>,
    returned: Returned<A>,
) -> Option<RefusedLine>
    requires { AreBack ports.queue returned }
    ensures agrees { (ls : List PlainLine) → AreResults ls ports.queue returned → TakenAgrees ls returned.drain.taken }
    ensures refused { (ls : List PlainLine) (missing : Option (ℕ × ℕ)) → AreResults ls ports.queue returned
        → MatchOption missing (Unit {0}) (λ name. name.0 < 8 → EndsLack returned.ends name.0 name.1) → AreRecorded ls result missing }
{
    let Returned {
        passes,
        ends,
        drain,
    } = returned;
    let ByPort(zero, one, two, three) = passes;
    ports.drain_and_settle(rt, [zero, one, two, three], drain);
    first_refused(&ends)
}
