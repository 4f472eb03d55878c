//! The counts of a list's issues, stored under their queries.

ghost use Rattle.std.specs.Prelude.{◌≡◌, ℕ, Some, map, slice_index, slice_set};
ghost use Rattle.gfxspec.specs.Recorded.{issues};
ghost use Rattle.meaning.specs.Contexts.{with_counts};
ghost use Rattle.command.specs.Seen.{command_value};

use cmdlist::Command;
use gfxspec::QUERY_LIMIT;
use std::alloc::Allocator;

/// The count of an issue.
fn count_of(counts: &[u64], issue: usize) -> u64
    ensures { result ≡ slice_index counts.now issue }
{
    match counts.get(issue) {
        Some(count) => *count,
        None => 0,
    }
}

/// Stores the count of an issue under its query.
fn store(results: &mut [Option<u64>; 64], query: u32, count: u64)
    ensures { results.new ≡ slice_set results.old query (Some count) }
{
    if query < QUERY_LIMIT {
        results[query as usize] = Some(count);
    }
}

/// Stores the counts of a list's issues, in order, each under its query.
pub(crate) fn store_counts<A: Allocator>(
    results: &mut [Option<u64>; 64],
    commands: &[Command<A>],
    counts: &[u64],
)
    ensures { results.new ≡ with_counts 0 (λ issue. slice_index counts.now issue) (issues (map command_value commands.now)) results.old }
{
    let mut issue = 0;
    for command in commands {
        if let Some(query) = command.query_begun() {
            store(results, query, count_of(counts, issue));
            issue += 1;
        }
    }
}
