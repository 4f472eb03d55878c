//! A recorder's thread, as the caller holds it.

ghost use Rattle.std.specs.Prelude.{◌≡◌, ◌<◌, [], All, MatchOption, IsSome};
ghost use Rattle.port.specs.History.{port_history};
ghost use Rattle.recorders.specs.Apart.{IsListed};
ghost use Rattle.recorders.specs.Receiving.{IsResultOf, EndsWith};

use crate::context::record_lines;
use crate::dealing::DealtLines;
use crate::ports::{ListPass, ListPorts, RecordedList};
use crate::refusal::RecordingEnd;
use crate::sink::ListSender;
use std::alloc::Allocator;
use std::marker::Model;
use std::mem;
use std::sync::Wait;
use std::thread::{Promise, PromisedHandle, Scope, Threads};
use workers::Gate;

/// What all recorders of a scene work with.
#[derive(Drop)]
pub struct RecorderSetup<'s, A: Allocator, R, G> {
    pub rt: &'s R,
    pub alloc: A,
    pub ports: &'s ListPorts<A>,
    pub gate: &'s G,
    pub lines: &'s DealtLines<'s, A>,
}

/// What a recorder hands over: its pass, the lists that it did not send, and how its two contexts ended.
#[derive(Drop)]
pub struct RecorderResult<A: Allocator> {
    pub(crate) pass: ListPass<A>,
    pub(crate) kept: Vec<RecordedList<A>, A>,
    pub(crate) end: RecordingEnd,
}

/// What a recorder was asked for. Its promise is what it hands over.
#[derive(Drop)]
pub(crate) struct RecorderTask<'a, A: Allocator> {
    lines: &'a DealtLines<'a, A>,
    ports: &'a ListPorts<A>,
    port: u32,
}

impl<'a, A: Allocator> Promise<RecorderResult<A>> for RecorderTask<'a, A> {
    ghost use Rattle.recorders.specs.Receiving.{IsResultOf};

    ghost kept_by = { λ p r. IsResultOf p.lines.now p.ports.now.queue p.port r };
}

/// A recorder's thread, or what it handed over.
#[derive(Drop)]
pub(crate) struct Recorder<'a, A: Allocator> {
    task: RecorderTask<'a, A>,
    thread: Option<PromisedHandle<RecorderResult<A>, RecorderTask<'a, A>>>,
    done: Option<RecorderResult<A>>,
}

impl<'a, A: Allocator> Model for Recorder<'a, A> {
    ghost use Rattle.std.specs.Prelude.{◌≡◌, None, MatchOption, IsSome};
    ghost use Rattle.recorders.specs.Receiving.{RecorderSeen, IsResultOf};

    ghost Value = { RecorderSeen A };

    ghost view = { λ d. record { task = record { lines = d.task.lines.now; queue = d.task.ports.now.queue; number = d.task.port }; result = d.done } };

    ghost invariant = { λ d. MatchOption d.thread (IsSome d.done) (λ h. (h.promise ≡ d.task) × (d.done ≡ None)) × MatchOption d.done (Unit {0}) (IsResultOf d.task.lines.now d.task.ports.now.queue d.task.port) };
}

/// Takes the lines of contexts `number` and `number + 4`, and sends their lists.
fn record_and_send<A: Allocator + Copy, R: Wait, G: Gate>(
    alloc: A,
    lines: &DealtLines<'_, A>,
    sender: ListSender<'_, A, R, G>,
    number: u32,
) -> RecorderResult<A>
    requires sender { sender ≡ record { queue = sender.queue; port = number; sent = []; kept = [] } }
    requires number { number < 4 }
    ensures { IsResultOf lines.now sender.entry.queue number result }
{
    let mut sender = sender;
    let end = record_lines(alloc, lines, number, &mut sender);
    let ListSender { pass, kept, .. } = sender;
    RecorderResult { pass, kept, end }
}

/// Starts a recorder. Where it has no lines, or no thread starts, the caller records.
pub(crate) fn start<
    's,
    E,
    A: Allocator + Copy + Send + Sync + 's,
    R: Wait + Sync + 's,
    G: Gate + Sync + 's,
>(
    scope: &'s Scope<'s, E>,
    setup: &RecorderSetup<'s, A, R, G>,
    pass: ListPass<A>,
    port: u32,
) -> Recorder<'s, A>
    requires pass { pass ≡ port_history setup.now.ports.now.queue port [] }
    requires port { port < 4 }
    ensures { result.task ≡ record { lines = setup.now.lines.now; queue = setup.now.ports.now.queue; number = port } }
{
    let (alloc, ports, lines) = (setup.alloc, setup.ports, setup.lines);
    let sender = ListSender {
        rt: setup.rt,
        ports,
        gate: setup.gate,
        pass,
        kept: Vec::new(alloc),
    };
    let task = RecorderTask { lines, ports, port };
    let promise = RecorderTask { ..task };
    if lines.count(port as usize) == 0 {
        let done = Some(record_and_send(alloc, lines, sender, port));
        let thread = None;
        return Recorder { task, thread, done };
    }
    let record = move || record_and_send(alloc, lines, sender, port);
    let (thread, done) = match scope.spawn_with(promise, record) {
        Ok(thread) => (Some(thread), None),
        Err(refused) => (None, Some((refused.value)())),
    };
    Recorder { task, thread, done }
}

impl<'a, A: Allocator> Recorder<'a, A> {
    /// Joins the thread, if it was not joined.
    fn wait<R: Threads>(&mut self, rt: &R)
        ensures joined { (self.new.task ≡ self.old.task) × IsSome self.new.result }
        ensures stays { MatchOption self.old.result (Unit {0}) (λ r. self.new.result ≡ Some r) }
    {
        if let Some(thread) = self.thread.take() {
            self.done = Some(thread.join(rt));
        }
    }

    /// Joins the thread, if it was not joined, and takes the lists that it did not send, and how its contexts ended.
    pub(crate) fn join<R: Threads>(
        &mut self,
        rt: &R,
        alloc: A,
    ) -> (Vec<RecordedList<A>, A>, RecordingEnd)
        ensures same { self.new.task ≡ self.old.task }
        ensures listed { All (IsListed self.old.task.lines) result.0.items }
        ensures end { EndsWith self.new.result result.1 }
    {
        self.wait(rt);
        match &mut self.done {
            None => unreachable!(),
            Some(result) => (mem::replace(&mut result.kept, Vec::new(alloc)), result.end),
        }
    }

    /// Joins the thread, if it was not joined, and gives what it handed over.
    pub(crate) fn close<R: Threads>(mut self, rt: &R) -> RecorderResult<A>
        ensures result { IsResultOf self.entry.task.lines self.entry.task.queue self.entry.task.number result }
        ensures same { MatchOption self.entry.result (Unit {0}) (λ r. result ≡ r) }
    {
        self.wait(rt);
        let Recorder { done, .. } = self;
        match done {
            None => unreachable!(),
            Some(result) => result,
        }
    }
}
