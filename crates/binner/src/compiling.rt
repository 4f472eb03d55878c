//! A list that is being compiled: each command adds to the words of the tiles.

ghost use Rattle.std.specs.Prelude.{◌≡◌, ◌≤◌, ◌<◌, ◌+◌, ◌-◌, ◌++◌, ◌∷◌, [], ℕ, List, drop, map, length, slice_get, IsTrue, IfOk, IfSome, OnOk, Some, All};
ghost use Rattle.gfxspec.specs.Assembly.{part};
ghost use Rattle.std.specs.List.{list_all};
ghost use Rattle.gfxspec.specs.Refusals.{is_in_range};
ghost use Rattle.gfxspec.specs.Recorded.{drawn_items};
ghost use Rattle.assemble.specs.Drawing.{IsInRange, triangles_of};
ghost use Rattle.command.specs.Seen.{state_value, command_value};
ghost use Rattle.cmdlist.specs.Drawable.{told};
ghost use Rattle.cmdlist.specs.Drawn.{drawing_items};
ghost use Rattle.binner.specs.Setups.{AreSetups, all_setups, IsSetUp, MatchesDraw};
ghost use Rattle.binner.specs.Compiling.{IsSound, AddsSetup, AddsColor, AddsDepth, Enters, Adds, AddsList, CanCompile};

use crate::ahead::{DrawSetups, Parts, take_ahead};
use crate::entry::{Current, StateEntry, entry};
use crate::lists::{Lists, add_to_all, add_to_tiles};
use crate::opened::{note, nothing_begun};
use crate::prepare::prepared;
use crate::setup::TriSetup;
use crate::table::TriangleTable;
use assemble::{Draw, triangles};
use cmdlist::{Command, Drawing, State, drawing_of};
use gfxspec::DepthStencil;
use std::alloc::{AllocError, Allocator};
use std::ops::Range;
use tileword::Word;

/// The lists of words, and what the numbers in them name.
#[derive(Drop)]
pub struct Compiling<A: Allocator> {
    pub lists: Lists<A>,
    pub states: Vec<StateEntry, A>,
    pub(crate) triangles: TriangleTable<A>,
    pub colors: Vec<[u8; 4], A>,
    pub depths: Vec<DepthStencil, A>,
    /// The entry that the last triangles were drawn under, if there is one.
    pub current: Option<Current>,
    /// How many triangles were added: those that were drawn again are counted again.
    pub drawn: usize,
}

/// How many states, triangles or clears a compiled list has at most.
const MOST: usize = 65_536;

/// The entry of the state: the current one, if triangles are drawn alike under it, and else a new one. Refused too where no
/// more states have room.
fn current_entry<A: Allocator + Copy>(
    compiling: &mut Compiling<A>,
    state: &State<'_>,
    issues: u64,
) -> Result<Current, AllocError>
    requires { IsSound compiling.old }
    ensures bins { length compiling.new.lists.bins ≡ length compiling.old.lists.bins }
    ensures enters { IfOk result (λ now. Enters (state_value state.now) issues now compiling.old compiling.new) }
{
    if let Some(current) = compiling.current {
        if compiling.states[current.entry as usize].draws_as(state, issues) {
            return Ok(current);
        }
    }
    let states = compiling.states.len();
    if states >= MOST {
        return Err(AllocError);
    }
    let current = Current {
        entry: states as u16,
        first: compiling.triangles.len() as u32,
        counted: issues != 0,
    };
    compiling.states.push(entry(state, issues))?;
    compiling.current = Some(current);
    Ok(current)
}

/// Adds a triangle of the table under an entry. Refused too where no more triangles have room.
#[inline(always)]
fn add_numbered<A: Allocator + Copy>(
    compiling: &mut Compiling<A>,
    number: usize,
    current: Current,
) -> Result<(), AllocError>
    requires sound { IsSound compiling.old }
    requires number { number < length compiling.old.triangles }
    ensures bins { length compiling.new.lists.bins ≡ length compiling.old.lists.bins }
    ensures table { compiling.new.triangles ≡ compiling.old.triangles }
    ensures added { (setup : TriSetup) → slice_get compiling.old.triangles number ≡ Some setup → OnOk result (AddsSetup setup number current compiling.old compiling.new) }
{
    if compiling.drawn >= MOST {
        return Err(AllocError);
    }
    let setup = compiling.triangles.get(number);
    add_to_tiles(&mut compiling.lists, setup, current, number as u16)?;
    compiling.drawn += 1;
    Ok(())
}

/// Adds a triangle under an entry. Refused too where no more triangles have room.
#[inline(always)]
fn add_setup<A: Allocator + Copy>(
    compiling: &mut Compiling<A>,
    setup: TriSetup,
    current: Current,
) -> Result<(), AllocError>
    requires sound { IsSound compiling.old }
    ensures bins { length compiling.new.lists.bins ≡ length compiling.old.lists.bins }
    ensures table { OnOk result (compiling.new.triangles ≡ compiling.old.triangles ++ setup ∷ []) }
    ensures added { OnOk result (AddsSetup setup (length compiling.old.triangles) current compiling.old compiling.new) }
{
    let number = compiling.triangles.len();
    if number >= MOST || compiling.drawn >= MOST {
        return Err(AllocError);
    }
    add_to_tiles(&mut compiling.lists, &setup, current, number as u16)?;
    compiling.triangles.push(setup)?;
    compiling.drawn += 1;
    Ok(())
}

/// Whether one more clear has room.
fn takes_clear<A: Allocator>(compiling: &Compiling<A>) -> bool
    ensures { IsTrue result → length compiling.now.colors.items + length compiling.now.depths.items < 65536 }
{
    let colors = compiling.colors.len();
    colors.saturating_add(compiling.depths.len()) < MOST
}

/// Clears the colour. Refused too where no more clears have room.
fn add_color<A: Allocator + Copy>(
    compiling: &mut Compiling<A>,
    rgba: [u8; 4],
) -> Result<(), AllocError>
    requires { IsSound compiling.old }
    ensures bins { length compiling.new.lists.bins ≡ length compiling.old.lists.bins }
    ensures added { OnOk result (AddsColor rgba compiling.old compiling.new) }
{
    if !takes_clear(compiling) {
        return Err(AllocError);
    }
    let number = compiling.colors.len() as u16;
    compiling.colors.push(rgba)?;
    add_to_all(&mut compiling.lists, Word::ClearC(number))
}

/// Clears depth and stencil. Refused too where no more clears have room.
fn add_depth<A: Allocator + Copy>(
    compiling: &mut Compiling<A>,
    value: DepthStencil,
) -> Result<(), AllocError>
    requires { IsSound compiling.old }
    ensures bins { length compiling.new.lists.bins ≡ length compiling.old.lists.bins }
    ensures added { OnOk result (AddsDepth value compiling.old compiling.new) }
{
    if !takes_clear(compiling) {
        return Err(AllocError);
    }
    let number = compiling.depths.len() as u16;
    compiling.depths.push(value)?;
    add_to_all(&mut compiling.lists, Word::ClearDs(number))
}

/// Adds the triangles of a draw.
fn add_draw<A: Allocator + Copy>(
    compiling: &mut Compiling<A>,
    draw: &Draw<'_>,
    state: &State<'_>,
    issues: u64,
) -> Result<(), AllocError>
    requires sound { IsSound compiling.old }
    requires range { IsInRange draw.now }
    requires vertices { IsTrue (list_all is_in_range draw.now.vertices.now) }
    ensures bins { length compiling.new.lists.bins ≡ length compiling.old.lists.bins }
    ensures table { OnOk result (length compiling.old.triangles ≤ length compiling.new.triangles) }
    ensures made { OnOk result (AreSetups (state_value state.now) compiling.old.lists.size (triangles_of draw.now) (drop (length compiling.old.triangles) compiling.new.triangles)) }
    ensures drawn { OnOk result (Adds issues (λ opened. drawn_items (state_value state.now) opened (triangles_of draw.now)) compiling.old compiling.new) }
{
    let current = current_entry(compiling, state, issues)?;
    for tri in triangles(draw) {
        if let Some(setup) = prepared(&tri.v, state, compiling.lists.size) {
            add_setup(compiling, setup, current)?;
        }
    }
    Ok(())
}

/// Adds the triangles of a draw that are set up already, in parts.
fn add_parts<A: Allocator + Copy>(
    compiling: &mut Compiling<A>,
    draw: &Draw<'_>,
    state: &State<'_>,
    issues: u64,
    parts: Parts<A>,
) -> Result<(), AllocError>
    requires sound { IsSound compiling.old }
    requires made { AreSetups (state_value state.now) compiling.old.lists.size (triangles_of draw.now) (all_setups parts.items) }
    ensures bins { length compiling.new.lists.bins ≡ length compiling.old.lists.bins }
    ensures drawn { OnOk result (Adds issues (λ opened. drawn_items (state_value state.now) opened (triangles_of draw.now)) compiling.old compiling.new) }
{
    let current = current_entry(compiling, state, issues)?;
    'parts: for part in parts {
        'setups: for setup in part {
            add_setup(compiling, setup, current)?;
        }
    }
    Ok(())
}

/// Adds the triangles of a draw that stand in the table already.
fn add_again<A: Allocator + Copy>(
    compiling: &mut Compiling<A>,
    draw: &Draw<'_>,
    state: &State<'_>,
    issues: u64,
    numbers: Range<usize>,
) -> Result<(), AllocError>
    requires sound { IsSound compiling.old }
    requires past { numbers.end ≤ length compiling.old.triangles }
    requires made { AreSetups (state_value state.now) compiling.old.lists.size (triangles_of draw.now) (part (numbers.end - numbers.start) numbers.start compiling.old.triangles) }
    ensures bins { length compiling.new.lists.bins ≡ length compiling.old.lists.bins }
    ensures drawn { OnOk result (Adds issues (λ opened. drawn_items (state_value state.now) opened (triangles_of draw.now)) compiling.old compiling.new) }
{
    let current = current_entry(compiling, state, issues)?;
    for number in numbers.start..numbers.end {
        add_numbered(compiling, number, current)?;
    }
    Ok(())
}

/// Adds the triangles of a draw: those that the same draw left before, or else one after the other.
fn add_known<A: Allocator + Copy>(
    compiling: &mut Compiling<A>,
    draw: &Draw<'_>,
    state: &State<'_>,
    issues: u64,
) -> Result<(), AllocError>
    requires sound { IsSound compiling.old }
    requires range { IsInRange draw.now }
    requires vertices { IsTrue (list_all is_in_range draw.now.vertices.now) }
    ensures bins { length compiling.new.lists.bins ≡ length compiling.old.lists.bins }
    ensures drawn { OnOk result (Adds issues (λ opened. drawn_items (state_value state.now) opened (triangles_of draw.now)) compiling.old compiling.new) }
{
    let size = compiling.lists.size;
    if let Some(numbers) = compiling.triangles.find(draw, state, size) {
        return add_again(compiling, draw, state, issues, numbers);
    }
    let first = compiling.triangles.len();
    add_draw(compiling, draw, state, issues)?;
    compiling.triangles.remember(draw, state, size, first)
}

/// Adds the triangles of a draw: those parts, if they are set up already, or else as they come.
fn add_drawn<A: Allocator + Copy>(
    compiling: &mut Compiling<A>,
    draw: &Draw<'_>,
    state: &State<'_>,
    issues: u64,
    parts: Option<Parts<A>>,
) -> Result<(), AllocError>
    requires sound { IsSound compiling.old }
    requires range { IsInRange draw.now }
    requires vertices { IsTrue (list_all is_in_range draw.now.vertices.now) }
    requires made { IfSome parts (λ parts. AreSetups (state_value state.now) compiling.old.lists.size (triangles_of draw.now) (all_setups parts.items)) }
    ensures bins { length compiling.new.lists.bins ≡ length compiling.old.lists.bins }
    ensures drawn { OnOk result (Adds issues (λ opened. drawn_items (state_value state.now) opened (triangles_of draw.now)) compiling.old compiling.new) }
{
    match parts {
        Some(parts) => add_parts(compiling, draw, state, issues, parts),
        None => add_known(compiling, draw, state, issues),
    }
}

/// Adds what is drawn or cleared under a state, with the open issues as bits. What is drawn may be set up already, in parts.
fn add_drawing<A: Allocator + Copy>(
    compiling: &mut Compiling<A>,
    drawing: Drawing<'_>,
    state: &State<'_>,
    issues: u64,
    parts: Option<Parts<A>>,
) -> Result<(), AllocError>
    requires sound { IsSound compiling.old }
    requires ready { IsSetUp (state_value state.now) compiling.old.lists.size parts drawing }
    ensures bins { length compiling.new.lists.bins ≡ length compiling.old.lists.bins }
    ensures drawn { OnOk result (Adds issues (λ opened. drawing_items (state_value state.now) opened drawing.entry) compiling.old compiling.new) }
{
    match drawing {
        Drawing::Nothing => Ok(()),
        Drawing::Triangles(draw) => add_drawn(compiling, &draw, state, issues, parts),
        Drawing::ClearColor(rgba) => add_color(compiling, rgba),
        Drawing::ClearDepthStencil(value) => add_depth(compiling, value),
    }
}

/// Adds what the commands of a list draw and clear behind what is compiled, from the default state on and under the results
/// before the list, and tells how many issues they begin. Some draws may be set up already. Refused too where the tables have
/// no room.
pub(crate) fn add_commands<A: Allocator + Copy>(
    compiling: &mut Compiling<A>,
    commands: &[Command<A>],
    results: &[bool; 64],
    ahead: Vec<DrawSetups<A>, A>,
) -> Result<u32, AllocError>
    requires can { CanCompile [] (map command_value commands.now) }
    requires sound { IsSound compiling.old }
    requires ahead { All (MatchesDraw commands.now compiling.old.lists.size) ahead.items }
    ensures bins { length compiling.new.lists.bins ≡ length compiling.old.lists.bins }
    ensures added { IfOk result (λ issues. AddsList (told results.now) (map command_value commands.now) issues compiling.old compiling.new) }
{
    let size = compiling.lists.size;
    let mut state = State::new();
    let mut bits = 0_u64;
    let mut begun = 0_u32;
    let mut of_query = nothing_begun();
    let mut ahead = ahead;
    for (place, command) in commands.iter().enumerate() {
        match drawing_of(command, &state, results) {
            Drawing::Nothing => {
                note(&mut bits, &mut begun, &mut of_query, command);
                state.change(command);
            }
            drawing => {
                let parts = take_ahead(&mut ahead, place, commands, size);
                add_drawing(compiling, drawing, &state, bits, parts)?;
            }
        }
    }
    Ok(begun)
}
