//! A deferred context of a script that goes on.

ghost use Rattle.std.specs.Prelude.{◌≡◌, ◌<◌, [], length, slice_index_or, OnOk, OnErr};
ghost use Rattle.gfxspec.specs.Recorded.{queries_open};
ghost use Rattle.gfxspec.specs.Accepted.{AreAccepted};
ghost use Rattle.gfxspec.specs.Refusals.{AnswersBy, finish_rows};
ghost use Rattle.scenetext.specs.Scene.{Finish};
ghost use Rattle.scenetext.specs.Seen.{verb_value};
ghost use Rattle.recorders.specs.Recording.{nothing_recorded, with_verb, deferred_rows};

use cmdlist::{CommandList, DeferredContext, DeviceContext};
use gfxspec::GfxError;
use scenetext::Verb;
use std::alloc::Allocator;
use std::marker::Model;

/// A deferred context and the lists that it has finished.
#[derive(Drop)]
pub(crate) struct ScriptContext<A: Allocator> {
    lists: Vec<CommandList<A>, A>,
    current: DeferredContext<A>,
}

impl<A: Allocator> Model for ScriptContext<A> {
    ghost use Rattle.recorders.specs.Recording.{Recording};

    ghost Value = { Recording };

    ghost view = { λ c. record { lists = c.lists.items; current = c.current } };
}

impl<A: Allocator> ScriptContext<A> {
    /// How many lists it has finished.
    pub(crate) fn count(&self) -> u64
        ensures { result ≡ length self.now.lists }
    {
        self.lists.len() as u64
    }

    /// A list that it has finished: its commands are accepted, and it leaves no query open.
    pub(crate) fn list(&self, number: u32) -> &CommandList<A>
        requires { number < length self.now.lists }
        ensures list { result.now ≡ slice_index_or self.now.lists number [] }
        ensures none_open { queries_open result.now ≡ [] }
        ensures accepted { AreAccepted result.now }
    {
        let list = &self.lists[number as usize];
        list.commands();
        list
    }
}

impl<A: Allocator + Copy> ScriptContext<A> {
    pub(crate) fn new(alloc: A) -> Self
        ensures { result ≡ nothing_recorded }
    {
        ScriptContext {
            lists: Vec::new(alloc),
            current: DeferredContext::new(alloc),
        }
    }

    /// Finishes its list, and begins the next with the kept state, if `restore` says so.
    fn finish(&mut self, restore: bool) -> Result<(), GfxError>
        ensures answer { AnswersBy (finish_rows self.old.current) result }
        ensures ok { OnOk result (self.new ≡ with_verb self.old (Finish restore)) }
        ensures err { OnErr result (self.new ≡ self.old) }
    {
        if self.current.has_open_queries() {
            return Err(GfxError::QueryLeftOpen);
        }
        self.lists.reserve(1)?; // a list that was finished has its place
        let list = self.current.finish(restore)?;
        self.lists.push_reserved(list);
        Ok(())
    }

    /// Makes the call that a verb spells. Verbs of the immediate context do nothing.
    pub(crate) fn call(&mut self, verb: &Verb<A>) -> Result<(), GfxError>
        ensures answer { AnswersBy (deferred_rows self.old.current (verb_value verb.now)) result }
        ensures ok { OnOk result (self.new ≡ with_verb self.old (verb_value verb.now)) }
        ensures err { OnErr result (self.new ≡ self.old) }
    {
        match verb {
            Verb::Record(command) => self.current.record(command),
            Verb::Finish(restore) => self.finish(*restore),
            _ => Ok(()),
        }
    }
}
