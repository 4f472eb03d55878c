//! What a recorder knows of the queries of its list.

ghost use Rattle.std.specs.Prelude.{◌≡◌, false, option_map, replicate, slice_index_or};
ghost use Rattle.cmdlist.specs.Recorder.{marked_by};

use arrayvec::ArrayVec;
use command::Command;
use gfxspec::QUERY_LIMIT;
use std::alloc::Allocator;

/// Marks a query, if there is one.
fn mark(marks: &mut [bool; 64], query: Option<u32>)
    ensures { marks.new ≡ marked_by marks.old query }
{
    if let Some(query) = query {
        if query < QUERY_LIMIT {
            marks[query as usize] = true;
        }
    }
}

/// Whether a query is marked. A number that is none is not.
pub(crate) fn is_marked(marks: &[bool; 64], query: u32) -> bool
    ensures { result ≡ slice_index_or marks.now query false }
{
    marks.get(query as usize).copied().unwrap_or(false)
}

/// The query of a predicate.
fn query_of(predicate: Option<(u32, bool)>) -> Option<u32>
    ensures { result ≡ option_map (λ p. p.0) predicate }
{
    match predicate {
        Some((query, _)) => Some(query),
        None => None,
    }
}

/// The queries of a list so far.
#[derive(Drop)]
pub(crate) struct Queries {
    /// How many issues began.
    pub(crate) issues: u32,
    /// The open queries.
    pub(crate) opened: ArrayVec<u32, 64>,
    /// A mark for each query that the list has begun.
    pub(crate) begun: [bool; 64],
    /// A mark for each query by which a command sets a predicate.
    pub(crate) named: [bool; 64],
}

impl Queries {
    ghost use Rattle.std.specs.Prelude.{◌≡◌, ◌<◌, ◌+◌, [], if◌then◌else◌, true, false, replicate};
    ghost use Rattle.arrayvec.specs.ArrayVec.{array_vec_len};
    ghost use Rattle.gfxspec.specs.Recorded.{query_begun, query_named};
    ghost use Rattle.meaning.specs.OneMore.{queries_with};
    ghost use Rattle.command.specs.Seen.{command_value};
    ghost use Rattle.cmdlist.specs.Recorder.{is_begin, marked_by};

    /// Those of no command.
    pub(crate) fn none() -> Self
        ensures issues { result.issues ≡ 0 }
        ensures opened { result.opened.items ≡ [] }
        ensures begun { result.begun ≡ replicate 64 false }
        ensures named { result.named ≡ replicate 64 false }
    {
        Queries {
            issues: 0,
            opened: ArrayVec::new(),
            begun: [false; 64],
            named: [false; 64],
        }
    }

    /// Notes the queries of one more command.
    pub(crate) fn note<A: Allocator>(&mut self, command: &Command<A>)
        requires room { is_begin (command_value command.now) ≡ true → array_vec_len self.old.opened < 64 }
        requires few { self.old.issues < 65536 }
        ensures issues { self.new.issues ≡ self.old.issues + (if is_begin (command_value command.now) then 1 else 0) }
        ensures opened { self.new.opened.items ≡ queries_with (command_value command.now) self.old.opened.items }
        ensures begun { self.new.begun ≡ marked_by self.old.begun (query_begun (command_value command.now)) }
        ensures named { self.new.named ≡ marked_by self.old.named (query_named (command_value command.now)) }
    {
        match command {
            Command::Begin(query) => {
                self.issues += 1;
                self.opened.push(*query);
                mark(&mut self.begun, Some(*query));
            }
            Command::End(query) => self.opened.retain(|other| *other != *query),
            Command::SetPredication(predicate) => mark(&mut self.named, query_of(*predicate)),
            Command::Kept(settings) => mark(&mut self.named, query_of(settings.predicate)),
            _ => {}
        }
    }
}
