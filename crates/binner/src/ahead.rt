//! The triangles of large draws are set up in threads here, before any word is written.
//!
//! A draw's triangles are assembled in order and cut into slices; each slice is set up into memory of its own, and what
//! comes out are the parts in order. No word depends on how many threads there are, or on whether a draw was set up ahead.

ghost use Rattle.std.specs.Prelude.{◌≡◌, map, IfOk, OnOk, IfSome, IsTrue, All};
ghost use Rattle.std.specs.List.{list_all};
ghost use Rattle.gfxspec.specs.Refusals.{is_in_range};
ghost use Rattle.gfxspec.specs.Accepted.{AreAccepted};
ghost use Rattle.assemble.specs.Triangle.{primitive_of};
ghost use Rattle.assemble.specs.Drawing.{IsInRange, triangles_of};
ghost use Rattle.command.specs.Seen.{command_value, state_value};
ghost use Rattle.binner.specs.Ready.{IsReady};
ghost use Rattle.cmdlist.specs.Drawable.{IsDrawable, drawn_by};
ghost use Rattle.binner.specs.Setups.{AreSetups, all_setups, MatchesDraw, Notes};

use crate::prepare::prepared;
use crate::setup::TriSetup;
use assemble::{Draw, triangle_count, triangles};
use cmdlist::{Command, Drawing, State, drawing_of};
use gfxspec::{Size, Vertex};
use rayon::prelude::*;
use std::alloc::{AllocError, Allocator};
use std::thread::Threads;

/// How many triangles a draw has at least, for threads to pay.
const LEAST_AHEAD: u32 = 4096;

/// How many triangles a slice has, which one thread sets up in one go.
const SLICE: usize = 256;

/// How many slices a thread has at least.
const LEAST_SLICES: usize = 8;

/// An assembled triangle whose vertices are in range, the leading one first.
#[derive(Clone, Copy)]
pub(crate) struct ReadyTri {
    pub(crate) v: [Vertex; 3],
    pub(crate) ghost ready: { IsReady (primitive_of (record { v = v })) },
}

/// The setups of a draw's triangles, in parts that stand one behind the other.
pub(crate) type Parts<A> = Vec<Vec<TriSetup, A>, A>;

/// The setups of a draw, with the place of its command in the list.
#[derive(Drop)]
pub(crate) struct DrawSetups<A: Allocator> {
    pub(crate) place: usize,
    pub(crate) parts: Parts<A>,
}

/// The triangles of a draw, one behind the other.
fn gathered<A: Allocator>(alloc: A, draw: &Draw<'_>) -> Result<Vec<ReadyTri, A>, AllocError>
    requires range { IsInRange draw.now }
    requires vertices { IsTrue (list_all is_in_range draw.now.vertices.now) }
    ensures { IfOk result (λ tris. map (λ t. primitive_of (record { v = t.v })) tris.items ≡ triangles_of draw.now) }
{
    let mut tris = Vec::with_capacity(alloc, triangle_count(draw) as usize)?;
    for tri in triangles(draw) {
        let v = tri.v;
        tris.push(ReadyTri { v })?;
    }
    Ok(tris)
}

/// The setups of a slice of triangles.
fn setups_of<A: Allocator>(
    alloc: A,
    tris: &[ReadyTri],
    state: &State<'_>,
    size: Size,
) -> Result<Vec<TriSetup, A>, AllocError>
    ensures { IfOk result (λ setups. AreSetups (state_value state.now) size (map (λ t. primitive_of (record { v = t.v })) tris.now) setups.items) }
{
    let mut setups = Vec::with_capacity(alloc, tris.len())?;
    for tri in tris {
        if let Some(setup) = prepared(&tri.v, state, size) {
            setups.push(setup)?;
        }
    }
    Ok(setups)
}

/// The setups of triangles, in parts, from as many threads as pay.
fn parts_of<A: Allocator + Copy + Send + Sync, R: Threads + Sync>(
    rt: &R,
    alloc: A,
    tris: &[ReadyTri],
    state: &State<'_>,
    size: Size,
) -> Result<Parts<A>, AllocError>
    ensures { IfOk result (λ parts. AreSetups (state_value state.now) size (map (λ t. primitive_of (record { v = t.v })) tris.now) (all_setups parts.items)) }
{
    let parts: Result<Parts<A>, AllocError> = tris
        .par_chunks(SLICE)
        .with_min_len(LEAST_SLICES)
        .map(
            |slice: &[ReadyTri]| -> Result<Vec<TriSetup, A>, AllocError>
                ensures { IfOk result (λ setups. AreSetups (state_value state.entry.now) size (map (λ t. primitive_of (record { v = t.v })) slice.now) setups.items) }
            { setups_of(alloc, slice, state, size) },
        )
        .collect(rt, alloc)?;
    parts
}

/// The setups of what a command draws, if that is many triangles and isn't withheld by the state's predicate.
fn parts_of_command<A: Allocator + Copy + Send + Sync, R: Threads + Sync>(
    rt: &R,
    alloc: A,
    command: &Command<A>,
    state: &State<'_>,
    size: Size,
    results: &[bool; 64],
) -> Result<Option<Parts<A>>, AllocError>
    requires { IsDrawable (state_value state.now) (command_value command.now) }
    ensures { IfOk result (λ parts. IfSome parts (λ p. AreSetups (state_value state.now) size (drawn_by (state_value state.now) (command_value command.now)) (all_setups p.items))) }
{
    let Drawing::Triangles(draw) = drawing_of(command, state, results) else {
        return Ok(None);
    };
    if triangle_count(&draw) < LEAST_AHEAD {
        return Ok(None);
    }
    let tris = gathered(alloc, &draw)?;
    let parts = parts_of(rt, alloc, tris.as_slice(), state, size)?;
    Ok(Some(parts))
}

/// Keeps the setups of the command at this place, if there are any.
fn note<A: Allocator>(
    ahead: &mut Vec<DrawSetups<A>, A>,
    place: usize,
    parts: Option<Parts<A>>,
) -> Result<(), AllocError>
    ensures { OnOk result (Notes place parts ahead.old.items ahead.new.items) }
{
    if let Some(parts) = parts {
        ahead.push(DrawSetups { place, parts })?;
    }
    Ok(())
}

/// The setups of each draw of a list that has many triangles and is performed under these results, for a target of this size.
pub(crate) fn set_up_ahead<A: Allocator + Copy + Send + Sync, R: Threads + Sync>(
    rt: &R,
    alloc: A,
    commands: &[Command<A>],
    size: Size,
    results: &[bool; 64],
) -> Result<Vec<DrawSetups<A>, A>, AllocError>
    requires { AreAccepted (map command_value commands.now) }
    ensures { IfOk result (λ ahead. All (MatchesDraw commands.now size) ahead.items) }
{
    let mut ahead = Vec::new(alloc);
    let mut state = State::new();
    for (place, command) in commands.iter().enumerate() {
        let parts = parts_of_command(rt, alloc, command, &state, size, results)?;
        note(&mut ahead, place, parts)?;
        state.change(command);
    }
    Ok(ahead)
}

/// Takes out what was set up for the command at this place, if that comes next.
pub(crate) fn take_ahead<A: Allocator>(
    ahead: &mut Vec<DrawSetups<A>, A>,
    place: usize,
    commands: &[Command<A>],
    size: Size,
) -> Option<Parts<A>>
    requires { All (MatchesDraw commands.now size) ahead.old.items }
    ensures rest { All (MatchesDraw commands.now size) ahead.new.items }
    ensures taken { IfSome result (λ parts. MatchesDraw commands.now size (record { place = place; parts = parts })) }
{
    let first = ahead.first()?;
    if first.place != place {
        return None;
    }
    let DrawSetups { place: _, parts } = ahead.remove(0);
    Some(parts)
}
