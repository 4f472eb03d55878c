//! The calls of the immediate context that lines spell.

ghost use Rattle.std.specs.Prelude.{◌≡◌, length, true};
ghost use Rattle.scenetext.specs.Seen.{verb_value};
ghost use Rattle.scenetext.specs.Commands.{IsVerb, may_take};
ghost use Rattle.scenetext.specs.Reading.{HasCounted};
ghost use Rattle.player.specs.Lines.{deferred_of, finished_by};
ghost use Rattle.player.specs.Answered.{untold, count_told, pixel_told, ImmediateAnswers};

use crate::context::ScriptContext;
use answers::Answer;
use cmdlist::DeviceContext;
use gfxspec::{GfxError, Pixel};
use immediate::ImmediateContext;
use scenetext::Verb;
use std::alloc::Allocator;

/// What a call tells that gives nothing.
pub(crate) fn untold(done: Result<(), GfxError>) -> Result<Option<Answer>, GfxError>
    ensures { result ≡ untold done }
{
    match done {
        Ok(_) => Ok(None),
        Err(refusal) => Err(refusal),
    }
}

/// What it tells that gives the count of a query.
fn count_told(query: u32, given: Result<u64, GfxError>) -> Result<Option<Answer>, GfxError>
    ensures { result ≡ count_told query given }
{
    match given {
        Ok(count) => Ok(Some(Answer::Counted { query, count })),
        Err(refusal) => Err(refusal),
    }
}

/// What it tells that gives a pixel.
fn pixel_told(x: u32, y: u32, given: Result<Pixel, GfxError>) -> Result<Option<Answer>, GfxError>
    ensures { result ≡ pixel_told x y given }
{
    match given {
        Ok(value) => Ok(Some(Answer::Shown { x, y, value })),
        Err(refusal) => Err(refusal),
    }
}

/// Makes the call that a verb spells: what it tells, if it asks.
pub(crate) fn call_immediate<A: Allocator + Copy + Send>(
    immediate: &mut ImmediateContext<A>,
    deferred: &[ScriptContext<A>],
    verb: &Verb<A>,
) -> Result<Option<Answer>, GfxError>
    requires verb { IsVerb (verb_value verb.now) }
    requires taken { may_take (verb_value verb.now) true ≡ true }
    requires wide { length deferred.now ≡ 8 }
    requires has_list { HasCounted (finished_by (deferred_of deferred.now)) (verb_value verb.now) }
    ensures { ImmediateAnswers (deferred_of deferred.now) (verb_value verb.now) immediate.old immediate.new result }
{
    match verb {
        Verb::Record(command) => untold(immediate.record(command)),
        Verb::Flush => untold(immediate.flush_alone()),
        Verb::Execute(context, number, restore) => {
            let list = deferred[*context as usize].list(*number);
            untold(immediate.enqueue_execution_alone(list, *restore))
        }
        Verb::Query(query) => count_told(*query, immediate.get_data_alone(*query)),
        Verb::Pixel(x, y) => pixel_told(*x, *y, immediate.pixel_alone(*x, *y)),
        Verb::Finish(_) => Ok(None),
    }
}
