//! All contexts recorded first, by the caller.

ghost use Rattle.std.specs.Prelude.{◌≡◌, ◌<◌, ℕ, Option, MatchOption};
ghost use Rattle.recorders.specs.Ending.{EndsLack, AreRecorded};

use crate::context::record_lines;
use crate::dealing::DealtLines;
use crate::refusal::{RecordingEnd, RefusedLine, first_refused};
use crate::rows::ListRows;
use crate::source::ListSource;
use cmdlist::CommandList;
use std::alloc::{AllocError, Allocator};
use std::marker::Model;

/// All deferred contexts of a scene, recorded: their lists, and the first line that one of them refused.
#[derive(Drop)]
pub struct RecordedLists<'a, A: Allocator> {
    lines: &'a DealtLines<'a, A>,
    rows: ListRows<A>,
    ends: [RecordingEnd; 4],
}

impl<'a, A: Allocator> Model for RecordedLists<'a, A> {
    ghost use Rattle.recorders.specs.Rows.{AreRows};
    ghost use Rattle.recorders.specs.Ending.{Alone, AreEnds};

    ghost Value = { Alone };

    ghost view = { λ s. record { lines = s.lines.now; rows = s.rows; ends = s.ends } };

    ghost invariant = { λ s. AreRows s.lines.now s.rows × AreEnds s.lines.now s.ends };
}

impl<'a, A: Allocator> RecordedLists<'a, A> {
    /// The first line that a deferred context refused. A list that was missing is not finished before it.
    pub fn first_refused(&self) -> Option<RefusedLine>
        ensures { (missing : Option (ℕ × ℕ)) → MatchOption missing (Unit {0}) (λ name. EndsLack self.now.ends name.0 name.1) → AreRecorded self.now.lines result missing }
    {
        first_refused(&self.ends)
    }
}

impl<'a, A: Allocator> ListSource<CommandList<A>> for RecordedLists<'a, A> {
    ghost use Rattle.std.specs.Prelude.{◌<◌, None, length};
    ghost use Rattle.recorders.specs.Recording.{listed};
    ghost use Rattle.recorders.specs.Rows.{row};
    ghost use Rattle.recorders.specs.Ending.{EndsLack};

    ghost frame = { λ s. record { lines = s.lines; queue = None } };

    ghost right = { λ s k n. listed s.lines k n };

    ghost agrees = { λ s. Unit {0} };

    ghost holds = { λ s k n. n < length (row s.rows k) };

    ghost lacks = { λ s k n. EndsLack s.ends k n };

    fn seek(&mut self, context: u32, number: u32) -> Result<bool, AllocError> {
        if self.rows.has(context, number) {
            return Ok(true);
        }
        let end = self.ends[(context % 4) as usize].of_context(context);
        if u64::from(number) < end.lists {
            return Err(AllocError);
        }
        Ok(false)
    }

    fn is_here(&mut self, context: u32, number: u32) -> bool {
        self.rows.has(context, number)
    }

    fn list(&self, context: u32, number: u32) -> &CommandList<A> {
        self.rows.list(context, number)
    }
}

/// Records all deferred contexts. This waits for nobody.
pub fn record_alone<'a, A: Allocator + Copy>(
    alloc: A,
    lines: &'a DealtLines<'a, A>,
) -> RecordedLists<'a, A>
    ensures { result.lines ≡ lines.now }
{
    let mut kept = Vec::new(alloc);
    let ends = [
        record_lines(alloc, lines, 0, &mut kept),
        record_lines(alloc, lines, 1, &mut kept),
        record_lines(alloc, lines, 2, &mut kept),
        record_lines(alloc, lines, 3, &mut kept),
    ];
    let mut rows = ListRows::new(alloc);
    rows.add_all(kept);
    RecordedLists { lines, rows, ends }
}
