//! Lines of a script.

ghost use Rattle.std.specs.Prelude.{◌≡◌, ◌≢◌, ◌<◌, ◌||◌, ℕ, List, length, false, IfSome, IfNone, IfOk, IfErr, IsTrue, Err, Some, None};
ghost use Rattle.scenetext.specs.Numbers.{is_context};
ghost use Rattle.scenetext.specs.Commands.{command_named, IsVerb};
ghost use Rattle.scenetext.specs.Seen.{actor_value, verb_value, line_value};
ghost use Rattle.scenetext.specs.Spelling.{actor_word, is_immediate_actor, IsActor};
ghost use Rattle.scenetext.specs.Faults.{is_immediate};
ghost use Rattle.scenetext.specs.Reading.{ReadsLine, RefusesLine, IsHead, RefusesHead, ReadsSize, RefusesFirst};

use crate::argument::next_argument;
use crate::fault::{Fault, ReadError};
use crate::numbers::expect;
use crate::scene::{Actor, Line};
use crate::text::FormedLine;
use crate::verbs::{CommandWord, verb_of};
use crate::words::{Words, context};
use gfxspec::Size;
use std::alloc::Allocator;

/// The actor that a word names.
fn actor_of(word: &[u8]) -> Option<Actor>
    ensures some { IfSome result (λ a. (word.now ≡ actor_word (actor_value a)) × IsActor (actor_value a)) }
    ensures none { IfNone result ((is_immediate word.now || is_context word.now) ≡ false) }
{
    if word == b"i".as_slice() {
        return Some(Actor::Immediate);
    }
    match context(word) {
        Some(number) => Some(Actor::Deferred(number)),
        None => None,
    }
}

fn is_immediate_context(actor: Actor) -> bool
    ensures { result ≡ is_immediate_actor (actor_value actor) }
{
    matches!(actor, Actor::Immediate)
}

/// The actor and the command of a later line.
fn head_of(words: &mut Words) -> Result<(Actor, CommandWord), ReadError>
    ensures ok { IfOk result (λ head. IsHead words.old (actor_value head.0) head.1 words.new) }
    ensures err { IfErr result (RefusesHead words.old) }
{
    let Some(word) = words.next() else {
        return Err(ReadError::Fault(Fault::Actor));
    };
    let Some(actor) = actor_of(word) else {
        return Err(ReadError::Fault(Fault::Actor));
    };
    let Some(word) = words.next() else {
        return Err(ReadError::Fault(Fault::Command));
    };
    let Some(command) = CommandWord::named(word, is_immediate_context(actor)) else {
        return Err(ReadError::Fault(Fault::Command));
    };
    Ok((actor, command))
}

/// A later line, where the contexts have finished so many lists.
pub(crate) fn line_of<A: Allocator + Copy>(
    alloc: A,
    finished: &[u64; 8],
    line: FormedLine,
) -> Result<Line<A>, ReadError>
    ensures ok { IfOk result (λ l. ReadsLine finished.now line.entry.bytes.now (line_value l)) }
    ensures err { IfErr result (RefusesLine finished.now line.entry.bytes.now) }
{
    let mut words = Words::new(line);
    let (actor, command) = head_of(&mut words)?;
    let verb = verb_of(alloc, finished, command, &mut words)?;
    Ok(Line { actor, verb })
}

/// The size that the first line gives.
pub(crate) fn size_of(line: FormedLine) -> Result<Size, ReadError>
    ensures ok { IfOk result (ReadsSize line.entry.bytes.now) }
    ensures err { IfErr result (RefusesFirst line.entry.bytes.now) }
{
    let mut words = Words::new(line);
    let Some(word) = words.next() else {
        return Err(ReadError::Fault(Fault::FirstLine));
    };
    if word != b"target".as_slice() {
        return Err(ReadError::Fault(Fault::FirstLine));
    }
    expect(&words, 2)?;
    Ok(Size {
        width: next_argument(&mut words)?,
        height: next_argument(&mut words)?,
    })
}
