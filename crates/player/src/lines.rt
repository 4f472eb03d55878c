//! The deferred contexts of a script, and how a line of it is played.

ghost use Rattle.std.specs.Prelude.{◌≡◌, ◌<◌, length, replicate, true, option_to_list, IfOk, IfErr, OnErr};
ghost use Rattle.scenetext.specs.Seen.{actor_value, verb_value, line_value};
ghost use Rattle.scenetext.specs.Commands.{IsVerb, may_take};
ghost use Rattle.scenetext.specs.Spelling.{IsActor, is_immediate_actor};
ghost use Rattle.scenetext.specs.Reading.{HasCounted};
ghost use Rattle.recorders.specs.Recording.{nothing_recorded};
ghost use Rattle.player.specs.Lines.{deferred_of, contexts_of, finished_by, PlaysLine, RefusesLine, IsLeft};
ghost use Rattle.player.specs.Answered.{CallAnswers};

use crate::calls::{call_immediate, untold};
use crate::context::ScriptContext;
use answers::Answer;
use gfxspec::GfxError;
use immediate::ImmediateContext;
use scenetext::{Actor, Line, read_line};
use std::alloc::{AllocError, Allocator};
use std::marker::Model;

/// The eight deferred contexts of a script, each with the lists that it has finished.
#[derive(Drop)]
pub struct Player<A: Allocator> {
    contexts: Vec<ScriptContext<A>, A>,
}

impl<A: Allocator> Model for Player<A> {
    ghost use Rattle.std.specs.Prelude.{◌≡◌, List, length};
    ghost use Rattle.recorders.specs.Recording.{Recording};

    ghost Value = { List Recording };

    ghost view = { λ p. p.contexts.items };

    ghost invariant = { λ p. length p.contexts.items ≡ 8 };
}

impl<A: Allocator + Copy + Send> Player<A> {
    /// Contexts that have recorded nothing.
    pub fn new(alloc: A) -> Result<Self, AllocError>
        ensures { IfOk result (λ player. player ≡ replicate 8 nothing_recorded) }
    {
        let mut contexts = Vec::new(alloc);
        for _ in 0..8usize {
            contexts.push(ScriptContext::new(alloc))?;
        }
        Ok(Player { contexts })
    }

    /// How many lists each context has finished.
    fn finished(&self) -> [u64; 8]
        ensures { result ≡ finished_by (deferred_of self.now) }
    {
        [
            self.contexts[0].count(),
            self.contexts[1].count(),
            self.contexts[2].count(),
            self.contexts[3].count(),
            self.contexts[4].count(),
            self.contexts[5].count(),
            self.contexts[6].count(),
            self.contexts[7].count(),
        ]
    }

    /// Makes the call that a line spells, on its context: what it tells, if it asks.
    fn call(
        &mut self,
        immediate: &mut ImmediateContext<A>,
        line: &Line<A>,
    ) -> Result<Option<Answer>, GfxError>
        requires actor { IsActor (actor_value line.now.actor) }
        requires verb { IsVerb (verb_value line.now.verb) }
        requires taken { may_take (verb_value line.now.verb) (is_immediate_actor (actor_value line.now.actor)) ≡ true }
        requires has_list { HasCounted (finished_by (deferred_of self.old)) (verb_value line.now.verb) }
        ensures answers { CallAnswers (contexts_of self.old immediate.old) (actor_value line.now.actor) (verb_value line.now.verb) (contexts_of self.new immediate.new) result }
        ensures same { OnErr result (self.new ≡ self.old) }
    {
        match line.actor {
            Actor::Immediate => call_immediate(immediate, self.contexts.as_slice(), &line.verb),
            Actor::Deferred(context) => untold(self.contexts[context as usize].call(&line.verb)),
        }
    }

    /// Plays the line at the front of a text on these contexts and an immediate one: what it tells, if it asks, and the
    /// text behind it. A line that has a fault, or whose call is refused, is answered by its number and changes nothing,
    /// but that without memory what is pending may have run.
    pub fn play_line<'t>(
        &mut self,
        alloc: A,
        immediate: &mut ImmediateContext<A>,
        text: &'t [u8],
    ) -> Result<(Option<Answer>, &'t [u8]), u32>
        requires { 0 < length text.now }
        ensures played { IfOk result (λ played. PlaysLine text.now (contexts_of self.old immediate.old) (contexts_of self.new immediate.new) (option_to_list played.0) played.1.now) }
        ensures refused { IfErr result (RefusesLine text.now (contexts_of self.old immediate.old)) }
        ensures same { OnErr result (self.new ≡ self.old) }
        ensures left { IfErr result (λ number. IsLeft number immediate.old immediate.new) }
    {
        let finished = self.finished();
        let (line, rest) = match read_line(alloc, &finished, text) {
            Ok(read) => read,
            Err(fault) => return Err(fault),
        };
        match self.call(immediate, &line) {
            Ok(told) => Ok((told, rest)),
            Err(refusal) => Err(refusal.number()),
        }
    }
}
