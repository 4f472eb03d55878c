//! The history of a pixel beside a session: each event with the step that it comes from.

ghost use Rattle.std.specs.Prelude.{◌≡◌, ◌<◌, ◌≤◌, ◌+◌, ◌^◌, ◌++◌, [], ℕ, List, drop, map, All, OnOk};
ghost use Rattle.gfxspec.specs.Limits.{side_bound};
ghost use Rattle.gfxspec.specs.Accepted.{AreAccepted};
ghost use Rattle.command.specs.Seen.{command_value};
ghost use Rattle.cmdlist.specs.Drawable.{told};
ghost use Rattle.pixelevents.specs.declared.Event.{Event};
ghost use Rattle.pixelhistory.specs.Passing.{origin_at, origin_behind, PassesList};

use crate::commands::trace_performed;
use crate::trace::Trace;
use cmdlist::{Command, State};
use pixelevents::{Event, NamedEvent, Origin, Place};
use std::alloc::{AllocError, Allocator};

/// Which steps of a session the commands of a list are.
#[derive(Clone, Copy, Debug, PartialEq, Eq)]
pub enum StepsOf {
    /// Each is a step of its own.
    Each,
    /// All are of the step that executes the list.
    List,
}

/// The trace of a pixel beside a session, with the origin of each event, and the number of the step that the next list
/// begins with.
#[derive(Drop)]
pub struct SessionTrace<A: Allocator> {
    pub trace: Trace<A>,
    pub origins: Vec<Origin, A>,
    pub step: u64,
}

impl<A: Allocator + Copy> SessionTrace<A> {
    ghost use Rattle.std.specs.Prelude.{IfOk};
    ghost use Rattle.gfxspec.specs.declared.geometry.Size.{Size};
    ghost use Rattle.pixelevents.specs.declared.Origin.{Origin};
    ghost use Rattle.pixelevents.specs.declared.NamedEvent.{NamedEvent};
    ghost use Rattle.pixelevents.specs.Origins.{AreNamed};
    ghost use Rattle.pixelevents.specs.Named.{named_by};
    ghost use Rattle.pixelhistory.specs.Standing.{Traces};

    /// The trace of a pixel of a new target.
    pub fn new(alloc: A) -> Self
        ensures { (size : Size) (x y : ℕ) → Traces size [] x y result }
    {
        SessionTrace {
            trace: Trace::new(alloc),
            origins: Vec::new(alloc),
            step: 0,
        }
    }

    /// Goes on behind a run of so many commands, of which each was a step. Refused where steps have no more numbers.
    pub fn go_on(&mut self, commands: usize) -> Result<(), AllocError>
        ensures trace { OnOk result (self.new.trace ≡ self.old.trace) }
        ensures origins { OnOk result (self.new.origins ≡ self.old.origins) }
        ensures step { OnOk result (self.new.step ≡ self.old.step + commands) }
    {
        self.step = self.step.checked_add(commands as u64).ok_or(AllocError)?;
        Ok(())
    }

    /// Its events, each named by its origin.
    pub fn named_by<F: Fn(Event, Origin) -> NamedEvent>(
        &self,
        alloc: A,
        name: &F,
    ) -> Result<Vec<NamedEvent, A>, AllocError>
        requires may { AreNamed (λ k origin. (e : Event) → F.pre name.now e origin) self.now.trace.events.items self.now.origins.items }
        ensures { (named : Event → Origin → NamedEvent) → ((e : Event) (origin : Origin) (n : NamedEvent) → F.post name.now e origin n → n ≡ named e origin)
            → IfOk result (λ events. events.items ≡ named_by named self.now.trace.events.items self.now.origins.items) }
    {
        let mut events = Vec::new(alloc);
        for number in 0..self.trace.events.len() {
            let event = self.trace.events[number];
            events.push(name(event, self.origins[number]))?;
        }
        Ok(events)
    }
}

/// How many items and steps a trace has room for before a list.
const ROOM: u64 = 1 << 62;

/// What comes of the first triangle of a command of a list whose steps begin with this one.
fn origin_of(step: u64, steps: StepsOf, command: u32) -> Origin
    requires { step < 2 ^ 63 }
    ensures { result ≡ origin_at step steps command 0 }
{
    match steps {
        StepsOf::Each => Origin {
            step: step + command as u64,
            place: Place {
                command: 0,
                triangle: 0,
            },
        },
        StepsOf::List => Origin {
            step,
            place: Place {
                command,
                triangle: 0,
            },
        },
    }
}

/// Tells where the events from a number on come from: from a command, whose first item has this number and this origin.
fn add_origins<A: Allocator>(
    trace: &mut SessionTrace<A>,
    from: usize,
    first: u64,
    origin: Origin,
) -> Result<(), AllocError>
    requires { All (λ (e : Event). (first ≤ e.item) × (e.item < first + 2 ^ 32)) (drop from trace.old.trace.events.items) }
    ensures trace { OnOk result (trace.new.trace ≡ trace.old.trace) }
    ensures step { OnOk result (trace.new.step ≡ trace.old.step) }
    ensures origins { OnOk result (trace.new.origins.items ≡ trace.old.origins.items ++ map (origin_behind first origin) (drop from trace.old.trace.events.items)) }
{
    for number in from..trace.trace.events.len() {
        let item = trace.trace.events[number].item;
        trace.origins.push(Origin {
            step: origin.step,
            place: Place {
                command: origin.place.command,
                triangle: (item - first) as u32,
            },
        })?;
    }
    Ok(())
}

/// Goes past what the commands of a list draw and clear, from the default state on and under the results before the list.
/// A trace without room for their numbers counts as one without memory.
pub fn trace_list<A: Allocator + Copy>(
    trace: &mut SessionTrace<A>,
    commands: &[Command<A>],
    results: &[bool; 64],
    steps: StepsOf,
    x: u32,
    y: u32,
) -> Result<(), AllocError>
    requires accepted { AreAccepted (map command_value commands.now) }
    requires x { x < side_bound }
    requires y { y < side_bound }
    ensures { OnOk result (PassesList (told results.now) (map command_value commands.now) steps x y trace.old trace.new) }
{
    if trace.trace.items >= ROOM {
        return Err(AllocError);
    }
    if trace.step >= ROOM {
        return Err(AllocError);
    }
    let mut state = State::new();
    let mut number = 0u32;
    for command in commands {
        let from = trace.trace.events.len();
        let first = trace.trace.items;
        trace_performed(&mut trace.trace, command, &state, results, x, y)?;
        let origin = origin_of(trace.step, steps, number);
        add_origins(trace, from, first, origin)?;
        number += 1;
        state.change(command);
    }
    Ok(())
}
