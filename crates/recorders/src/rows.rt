//! The lists of the eight contexts that are here.

ghost use Rattle.std.specs.Prelude.{◌≡◌, ◌<◌, ℕ, [], List, length, map, OnOk, OnErr, MatchBool, All, slice_index_or};
ghost use Rattle.scenetext.specs.Scene.{Line as PlainLine};
ghost use Rattle.recorders.specs.Apart.{IsListed};
ghost use Rattle.recorders.specs.Rows.{AreRows, IsNext, row, with_list};

use crate::ports::RecordedList;
use cmdlist::CommandList;
use std::alloc::{AllocError, Allocator};
use std::marker::Model;

/// A row for each context, of as many as there was memory for: its lists in order, from the first.
#[derive(Drop)]
pub(crate) struct ListRows<A: Allocator> {
    rows: Vec<Vec<CommandList<A>, A>, A>,
}

impl<A: Allocator> Model for ListRows<A> {
    ghost use Rattle.std.specs.Prelude.{List, map};
    ghost use Rattle.gfxspec.specs.Commands.{Command};

    ghost Value = { List (List (List Command)) };

    ghost view = { λ r. map (λ row. row.items) r.rows.items };
}

impl<A: Allocator> ListRows<A> {
    /// Whether a list is here.
    pub(crate) fn has(&self, context: u32, number: u32) -> bool
        ensures { MatchBool result (number < length (row self.now context)) (¬ (number < length (row self.now context))) }
    {
        match self.rows.get(context as usize) {
            Some(lists) => (number as usize) < lists.len(),
            None => false,
        }
    }

    /// A list that is here.
    pub(crate) fn list(&self, context: u32, number: u32) -> &CommandList<A>
        requires { number < length (row self.now context) }
        ensures { result.now ≡ slice_index_or (row self.now context) number [] }
    {
        &self.rows[context as usize][number as usize]
    }

    /// Puts a list behind those of its context. One that is not the next there is refused: the lists before it, or its row,
    /// were lost for want of memory.
    pub(crate) fn add(&mut self, recorded: RecordedList<A>) -> Result<(), AllocError>
        ensures ok { OnOk result (IsNext self.old recorded × (self.new ≡ with_list self.old recorded.context recorded.list)) }
        ensures err { OnErr result (self.new ≡ self.old) }
    {
        let context = recorded.context as usize;
        if context >= self.rows.len() {
            return Err(AllocError);
        }
        if self.rows[context].len() as u64 != recorded.number {
            return Err(AllocError);
        }
        self.rows[context].push(recorded.list)?;
        Ok(())
    }

    /// Puts lists behind those of their contexts, as many as memory is there for.
    pub(crate) fn add_all(&mut self, kept: Vec<RecordedList<A>, A>)
        ensures { (ls : List PlainLine) → All (IsListed ls) kept.items → AreRows ls self.old → AreRows ls self.new }
    {
        for recorded in kept {
            let _ = self.add(recorded);
        }
    }
}

/// So many empty rows, or as many as there is memory for.
pub(crate) fn empty_rows<T: Drop, A: Allocator + Copy>(alloc: A, count: usize) -> Vec<Vec<T, A>, A>
    ensures { (k : ℕ) → slice_index_or (map (λ row. row.items) result.items) k [] ≡ [] }
{
    let mut rows = Vec::new(alloc);
    for _ in 0..count {
        let _ = rows.push(Vec::new(alloc));
    }
    rows
}

impl<A: Allocator + Copy> ListRows<A> {
    pub(crate) fn new(alloc: A) -> Self
        ensures { (k : ℕ) → row result k ≡ [] }
    {
        ListRows {
            rows: empty_rows(alloc, 8),
        }
    }
}
