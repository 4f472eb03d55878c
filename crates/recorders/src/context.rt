//! A deferred context that takes its lines, and the two contexts of a recorder.

ghost use Rattle.std.specs.Prelude.{◌≡◌, ◌<◌, ◌+◌, ◌^◌, OnOk, IfErr};
ghost use Rattle.scenetext.specs.Scene.{Finish};
ghost use Rattle.scenetext.specs.Seen.{actor_value, verb_value, line_value};
ghost use Rattle.scenetext.specs.Spelling.{is_deferred};
ghost use Rattle.recorders.specs.Taking.{starting, VerbTaken, VerbRefused, HasTaken};
ghost use Rattle.recorders.specs.Recorders.{IsRecording};

use crate::dealing::DealtLines;
use crate::ports::Recorded;
use crate::refusal::{ContextEnd, RecordingEnd, RefusedLine};
use crate::sink::ListSink;
use cmdlist::{CommandList, DeferredContext, DeviceContext};
use gfxspec::GfxError;
use scenetext::{Actor, Line, Verb};
use std::alloc::Allocator;
use std::marker::Model;

/// A deferred context, how many lists it has finished, and the first line that it refused. Behind that it takes none.
#[derive(Drop)]
struct ContextRecorder<A: Allocator> {
    context: u32,
    deferred: DeferredContext<A>,
    end: ContextEnd,
}

impl<A: Allocator> Model for ContextRecorder<A> {
    ghost use Rattle.recorders.specs.Taking.{AtWork};

    ghost Value = { AtWork };

    ghost view = { λ r. record { context = r.context; current = r.deferred; end = r.end } };
}

/// Whether a line is one of this deferred context.
fn is_line_of<A: Allocator>(line: &Line<A>, context: u32) -> bool
    ensures { result ≡ is_deferred context (actor_value line.now.actor) }
{
    matches!(line.actor, Actor::Deferred(actor) if actor == context)
}

impl<A: Allocator + Copy> ContextRecorder<A> {
    fn new(alloc: A, context: u32) -> Self
        ensures { result ≡ starting context }
    {
        ContextRecorder {
            context,
            deferred: DeferredContext::new(alloc),
            end: ContextEnd {
                lists: 0,
                refused: None,
            },
        }
    }

    /// Finishes its list and puts it. The next one begins with the kept state, if `restore` says so.
    fn finish<S: ListSink<CommandList<A>>>(
        &mut self,
        restore: bool,
        sink: &mut S,
    ) -> Result<(), GfxError>
        requires { self.old.end.lists + 1 < 2 ^ 64 }
        ensures way { S.way sink.new ≡ S.way sink.old }
        ensures ok { OnOk result (VerbTaken (Finish restore) self.old self.new (S.put_lists sink.old) (S.put_lists sink.new)) }
        ensures err { IfErr result (VerbRefused (Finish restore) self.old self.new (S.put_lists sink.old) (S.put_lists sink.new)) }
    {
        let list = self.deferred.finish(restore)?;
        let recorded = Recorded {
            context: self.context,
            number: self.end.lists,
            list,
        };
        sink.put(recorded)?;
        self.end.lists += 1;
        Ok(())
    }

    /// Takes a verb of its own, and puts the list that it finishes. Verbs of the immediate context do nothing.
    fn take_verb<S: ListSink<CommandList<A>>>(
        &mut self,
        verb: &Verb<A>,
        sink: &mut S,
    ) -> Result<(), GfxError>
        requires { self.old.end.lists + 1 < 2 ^ 64 }
        ensures way { S.way sink.new ≡ S.way sink.old }
        ensures ok { OnOk result (VerbTaken (verb_value verb.now) self.old self.new (S.put_lists sink.old) (S.put_lists sink.new)) }
        ensures err { IfErr result (VerbRefused (verb_value verb.now) self.old self.new (S.put_lists sink.old) (S.put_lists sink.new)) }
    {
        match verb {
            Verb::Record(command) => self.deferred.record(command),
            Verb::Finish(restore) => self.finish(*restore, sink),
            _ => Ok(()),
        }
    }

    /// Takes the line at a place, if it is one of its own and none was refused, and puts the list that it finishes.
    fn take<S: ListSink<CommandList<A>>>(&mut self, place: usize, line: &Line<A>, sink: &mut S)
        requires { self.old.end.lists + 1 < 2 ^ 64 }
        ensures way { S.way sink.new ≡ S.way sink.old }
        ensures taken { HasTaken place (line_value line.now) self.old self.new (S.put_lists sink.old) (S.put_lists sink.new) }
    {
        if self.end.refused.is_some() || !is_line_of(line, self.context) {
            return;
        }
        if let Err(refusal) = self.take_verb(&line.verb, sink) {
            self.end.refused = Some(RefusedLine { place, refusal });
        }
    }
}

/// Takes the lines of contexts `number` and `number + 4`, and puts the lists that they finish.
pub(crate) fn record_lines<A: Allocator + Copy, S: ListSink<CommandList<A>>>(
    alloc: A,
    lines: &DealtLines<'_, A>,
    number: u32,
    sink: &mut S,
) -> RecordingEnd
    requires { number < 4 }
    ensures way { S.way sink.new ≡ S.way sink.old }
    ensures recorded { IsRecording lines.now number (S.put_lists sink.old) (S.put_lists sink.new) result }
{
    let mut first = ContextRecorder::new(alloc, number);
    let mut second = ContextRecorder::new(alloc, number + 4);
    let taker = number as usize;
    for next in 0..lines.count(taker) {
        let (place, line) = lines.line(taker, next);
        first.take(place, line, sink);
        second.take(place, line, sink);
    }
    let (first, second) = (first.end, second.end);
    RecordingEnd { first, second }
}
