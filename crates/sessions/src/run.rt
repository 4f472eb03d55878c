//! What runs the pending commands or executes, and what the immediate context is asked that runs nothing.

ghost use Rattle.std.specs.Prelude.{◌≡◌, ◌<◌, []};
ghost use Rattle.gfxspec.specs.Recorded.{queries_open};
ghost use Rattle.gfxspec.specs.Accepted.{AreAccepted};

use answers::Answer;
use cmdlist::{Command, CommandList, DeviceContext};
use gfxspec::GfxError;
use immediate::ImmediateContext;
use recorders::ListSource;
use std::alloc::Allocator;

/// What is executed: the pending commands alone, or those and then a list, which may wait.
#[derive(Clone, Copy, Debug)]
pub(crate) enum Running {
    /// What waits alone.
    Settle,
    /// The pending commands, for a question or at the end: they run.
    Flush,
    /// The pending commands, for a line that says so: they may wait.
    FlushLine,
    /// Of a context, its list of a number, and whether the state stays.
    Execute(u32, u32, bool),
}

/// What a line asks.
#[derive(Clone, Copy, Debug)]
pub(crate) enum Question {
    Query(u32),
    Pixel(u32, u32),
}

/// The immediate context, as contracts see it that don't know who runs the tiles, and the calls that run nothing.
pub(crate) trait RecordsCalls {
    ghost use Rattle.scenetext.specs.Scene.{Call};
    ghost use Rattle.command.specs.Seen.{command_value};
    ghost use Rattle.command.specs.Calls.{RecordsCall};
    ghost use Rattle.immediate.specs.Held.{Held, Executed, IsExamined, held_more};
    ghost use Rattle.std.specs.Prelude.{◌≡◌, ℕ, Bool, List, [], ◌∷◌, true, OnOk, IfErr};
    ghost use Rattle.gfxspec.specs.declared.geometry.Size.{Size};
    ghost use Rattle.gfxspec.specs.Refusals.{first_row};
    ghost use Rattle.gfxspec.specs.Session.{Step, Records};
    ghost use Rattle.recorders.specs.Apart.{Cause};
    ghost use Rattle.sessions.specs.Taking.{held_rows, verb_asked, IsInside, stored_answer, TracesOn};

    /// Where commands have their memory from.
    type Alloc: Allocator;

    ghost held: { Self → Held };

    /// What a flush line leaves: where nothing is drawn, the pending commands may wait.
    ghost flushed: { Held → Held → Type 0 };

    /// Whether the answers are heard.
    ghost heard: { Bool };

    /// What is kept beside it of a pixel of a target of this size, behind these steps.
    ghost traces: { Size → List Step → ℕ → ℕ → Self → Type 0 };

    /// Records a command.
    fn record_command(&mut self, command: &Command<Self::Alloc>) -> Result<(), GfxError>
        ensures taken { RecordsCall (λ (h : Held). h.pending) held_more (held self.old) (command_value command.now) (held self.new) result }
        ensures cause { IfErr result (Cause (first_row (held_rows (held self.old) (Call (command_value command.now))))) }
        ensures traced { OnOk result (TracesOn traces (held self.old) (Records (command_value command.now) ∷ []) self.old self.new) };

    /// Whether the answers are heard: else what is pending may wait at a question.
    fn hears(&self) -> bool
        ensures { result ≡ heard };

    /// Whether a question is refused before anything runs for it.
    fn examine(&self, question: Question) -> Result<(), GfxError>
        ensures rows { IsExamined (held_rows (held self.now) (verb_asked question)) result }
        ensures inside { OnOk result (IsInside (held self.now).surface.size question) };

    /// The answer of what is stored, where nothing waits.
    fn answer(&self, question: Question) -> Answer
        requires inside { IsInside (held self.now).surface.size question }
        requires settled { (held self.now).waiting ≡ [] }
        ensures { result ≡ stored_answer (held self.now) question };

    /// It leaves what an execution of nothing does.
    ghost flushed_runs: { (old new : Held) → flushed old new → Executed [] true old new };
}

impl<A: Allocator + Copy + Send> RecordsCalls for ImmediateContext<A> {
    type Alloc = A;

    ghost use Rattle.std.specs.Prelude.{[], true};
    ghost use Rattle.immediate.specs.Held.{Ran};

    ghost held = { λ context. context };

    ghost flushed = { Ran [] true };

    ghost heard = { true };

    ghost traces = { λ size steps x y context. Unit {0} };

    ghost flushed_runs = { λ old new ran. record { size = ran.size; run = ran.run } };

    fn record_command(&mut self, command: &Command<A>) -> Result<(), GfxError> {
        self.record(command)
    }

    fn hears(&self) -> bool {
        true
    }

    fn examine(&self, question: Question) -> Result<(), GfxError> {
        match question {
            Question::Query(query) => self.examine_query(query, 0),
            Question::Pixel(x, y) => self.examine_pixel(x, y, 0),
        }
    }

    fn answer(&self, question: Question) -> Answer {
        match question {
            Question::Query(query) => {
                let count = self.counted(query);
                Answer::Counted { query, count }
            }
            Question::Pixel(x, y) => {
                let value = self.stored_pixel(x, y);
                Answer::Shown { x, y, value }
            }
        }
    }
}

/// A list that is here. It is finished, so its commands are accepted, and it leaves no query open.
pub(crate) fn finished_list<A: Allocator, S: ListSource<CommandList<A>>>(
    lists: &S,
    of: u32,
    number: u32,
) -> &CommandList<A>
    requires context { of < 8 }
    requires held { S.holds lists.now of number }
    ensures right { S.agrees lists.now → result.now ≡ S.right lists.now of number }
    ensures none_open { queries_open result.now ≡ [] }
    ensures accepted { AreAccepted result.now }
{
    let list = lists.list(of, number);
    list.commands();
    list
}
