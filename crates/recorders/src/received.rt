//! The lists that the recorders send, as the caller gets them.

ghost use Rattle.std.specs.Prelude.{◌≡◌, ◌<◌, ℕ, All, Some, IfOk, MatchBool};
ghost use Rattle.port.specs.History.{drain_history};
ghost use Rattle.recorders.specs.Apart.{IsListed};
ghost use Rattle.recorders.specs.Ports.{at_port};
ghost use Rattle.recorders.specs.Recorders.{port_of};
ghost use Rattle.recorders.specs.Ending.{EndsLack};
ghost use Rattle.recorders.specs.Receiving.{receipt_frame, ReceiptLacks, AreNew, AreResults, AreSameRecorders, EndsWith, IsMore};

use crate::dealing::DealtLines;
use crate::ports::{ByPort, ListPorts, Passes, RecordedList, Returned};
use crate::recorder::{Recorder, RecorderSetup, start};
use crate::refusal::RecordingEnd;
use crate::rows::ListRows;
use crate::source::ListSource;
use cmdlist::CommandList;
use port::DrainPass;
use std::alloc::{AllocError, Allocator};
use std::marker::Model;
use std::sync::Wait;
use std::thread::{Scope, Threads};
use workers::Gate;

/// The lists that have come from four recorders.
#[derive(Drop)]
pub struct ReceivedLists<'a, A: Allocator, R: Threads + Wait> {
    rt: &'a R,
    alloc: A,
    lines: &'a DealtLines<'a, A>,
    ports: &'a ListPorts<A>,
    drain: DrainPass<RecordedList<A>>,
    recorders: ByPort<Recorder<'a, A>>,
    rows: ListRows<A>,
}

impl<'a, A: Allocator, R: Threads + Wait> Model for ReceivedLists<'a, A, R> {
    ghost use Rattle.std.specs.Prelude.{◌≡◌};
    ghost use Rattle.recorders.specs.Rows.{AreRows};
    ghost use Rattle.recorders.specs.Receiving.{Receipts, AreRecorders, TakenAgrees};

    ghost Value = { Receipts A };

    ghost view = { λ s. record { lines = s.lines.now; queue = s.ports.now.queue; taken = s.drain.taken; recorders = s.recorders; rows = s.rows } };

    ghost invariant = { λ s. (s.drain.queue ≡ s.ports.now.queue) × AreRecorders s.lines.now s.ports.now.queue s.recorders × (TakenAgrees s.lines.now s.drain.taken → AreRows s.lines.now s.rows) };
}

/// Joins the recorder of a context, and takes the lists that it did not send, and how its contexts ended.
fn join_of<'a, A: Allocator, R: Threads>(
    rt: &R,
    alloc: A,
    recorders: &mut ByPort<Recorder<'a, A>>,
    context: u32,
) -> (Vec<RecordedList<A>, A>, RecordingEnd)
    requires { context < 8 }
    ensures same { AreSameRecorders recorders.old recorders.new }
    ensures listed { All (IsListed (at_port recorders.old (port_of context)).task.lines) result.0.items }
    ensures end { EndsWith (at_port recorders.new (port_of context)).result result.1 }
{
    match context {
        0 | 4 => recorders.0.join(rt, alloc),
        1 | 5 => recorders.1.join(rt, alloc),
        2 | 6 => recorders.2.join(rt, alloc),
        _ => recorders.3.join(rt, alloc),
    }
}

impl<'a, A: Allocator + Copy, R: Threads + Wait> ReceivedLists<'a, A, R> {
    /// Takes a list out and puts it onto its row, if memory is there for it. False where the queue is empty.
    fn take_one(&mut self) -> bool
        ensures more { IsMore self.old self.new }
        ensures same { self.new.recorders ≡ self.old.recorders }
    {
        let Some(next) = self.ports.next(self.rt, &mut self.drain) else {
            return false;
        };
        let _ = self.rows.add(next.list);
        true
    }

    /// Takes all lists out that are there.
    fn take_all(&mut self)
        ensures more { IsMore self.old self.new }
        ensures same { self.new.recorders ≡ self.old.recorders }
    {
        let rt = self.rt;
        for _ in rt.forever() {
            if !self.take_one() {
                return;
            }
        }
        unreachable!()
    }

    /// Joins the recorder of a context, takes its lists, those that it sent and then the others, and says how its contexts
    /// ended.
    fn join(&mut self, context: u32) -> RecordingEnd
        requires { context < 8 }
        ensures more { IsMore self.old self.new }
        ensures end { EndsWith (at_port self.new.recorders (port_of context)).result result }
    {
        let (kept, end) = join_of(self.rt, self.alloc, &mut self.recorders, context);
        self.take_all();
        self.rows.add_all(kept);
        end
    }

    /// Joins all recorders, and gives what they handed over.
    pub fn close(self) -> Returned<A>
        ensures results { AreResults self.entry.lines self.entry.queue result }
        ensures lacks { (k n : ℕ) → k < 8 → ReceiptLacks self.entry k n → EndsLack result.ends k n }
        ensures drain { result.drain ≡ drain_history self.entry.queue self.entry.taken }
    {
        let ByPort(zero, one, two, three) = self.recorders;
        let zero = zero.close(self.rt);
        let one = one.close(self.rt);
        let two = two.close(self.rt);
        let three = three.close(self.rt);
        let passes = ByPort(zero.pass, one.pass, two.pass, three.pass);
        let ends = [zero.end, one.end, two.end, three.end];
        Returned {
            passes,
            ends,
            drain: self.drain,
        }
    }
}

impl<'a, A: Allocator + Copy, R: Threads + Wait> ListSource<CommandList<A>>
    for ReceivedLists<'a, A, R> {
    ghost use Rattle.std.specs.Prelude.{◌<◌, length};
    ghost use Rattle.recorders.specs.Rows.{row};
    ghost use Rattle.recorders.specs.Receiving.{receipt_frame, receipt_right, ReceiptAgrees, ReceiptLacks};

    ghost frame = { receipt_frame };

    ghost right = { receipt_right };

    ghost agrees = { ReceiptAgrees };

    ghost holds = { λ s k n. n < length (row s.rows k) };

    ghost lacks = { ReceiptLacks };

    fn seek(&mut self, context: u32, number: u32) -> Result<bool, AllocError> {
        self.take_all();
        if self.rows.has(context, number) {
            return Ok(true);
        }
        let end = self.join(context);
        if self.rows.has(context, number) {
            return Ok(true);
        }
        if u64::from(number) < end.of_context(context).lists {
            return Err(AllocError);
        }
        Ok(false)
    }

    fn is_here(&mut self, context: u32, number: u32) -> bool {
        if self.rows.has(context, number) {
            return true;
        }
        self.take_all();
        self.rows.has(context, number)
    }

    fn list(&self, context: u32, number: u32) -> &CommandList<A> {
        self.rows.list(context, number)
    }
}

/// Starts the recorders.
pub fn receive<
    's,
    E,
    A: Allocator + Copy + Send + Sync + 's,
    R: Threads + Wait + Sync + 's,
    G: Gate + Sync + 's,
>(
    scope: &'s Scope<'s, E>,
    setup: RecorderSetup<'s, A, R, G>,
    passes: Passes<A>,
) -> ReceivedLists<'s, A, R>
    requires { AreNew setup.ports.now.queue passes }
    ensures frame { receipt_frame result ≡ record { lines = setup.entry.lines.now; queue = Some setup.entry.ports.now.queue } }
{
    let recorders = ByPort(
        start(scope, &setup, passes.recorders.0, 0),
        start(scope, &setup, passes.recorders.1, 1),
        start(scope, &setup, passes.recorders.2, 2),
        start(scope, &setup, passes.recorders.3, 3),
    );
    ReceivedLists {
        rt: setup.rt,
        alloc: setup.alloc,
        lines: setup.lines,
        ports: setup.ports,
        drain: passes.drain,
        recorders,
        rows: ListRows::new(setup.alloc),
    }
}
