//! What a command draws and clears under the state before it, unless the state's predicate withholds it
//! (Microsoft Learn, ID3D11DeviceContext::Draw, SetPredication).

ghost use Rattle.std.specs.Prelude.{◌≡◌, ℕ, List};
ghost use Rattle.gfxspec.specs.Assembly.{draw_primitives, draw_indexed_primitives};
ghost use Rattle.gfxspec.specs.Commands.{Draw as DrawCall, DrawIndexed as IndexedCall};
ghost use Rattle.gfxspec.specs.Recorded.{drawn_items};
ghost use Rattle.gfxspec.specs.Predication.{withholds};
ghost use Rattle.meaning.specs.OneMore.{performed_items};
ghost use Rattle.command.specs.Seen.{state_value, command_value};
ghost use Rattle.cmdlist.specs.Drawable.{IsDrawable, drawn_by, told};
ghost use Rattle.cmdlist.specs.Drawn.{drawing_items, Draws, IsOf};

use crate::queries::is_marked;
use assemble::Draw;
use command::{Command, State};
use gfxspec::DepthStencil;
use std::alloc::Allocator;

/// What a command does to pixels.
#[derive(Clone, Copy)]
pub enum Drawing<'a> {
    Nothing,
    Triangles(Draw<'a>),
    ClearColor([u8; 4]),
    ClearDepthStencil(DepthStencil),
}

/// What a draw without indices takes.
fn plain_draw<'a>(state: &State<'a>, count: u32, start: u32) -> Drawing<'a>
    requires { IsDrawable (state_value state.now) (DrawCall count start) }
    ensures items { (opened : List ℕ) → drawing_items (state_value state.now) opened result ≡ drawn_items (state_value state.now) opened (draw_primitives (state_value state.now) count start) }
    ensures draws { Draws (draw_primitives (state_value state.now) count start) result }
    ensures command { IsOf (DrawCall count start) result }
{
    let Some(topology) = state.topology else {
        return Drawing::Nothing;
    };
    Drawing::Triangles(Draw {
        topology,
        vertices: state.vertices,
        indices: None,
        count,
        start,
        base: 0,
    })
}

/// What a draw by indices takes.
fn indexed_draw<'a>(state: &State<'a>, count: u32, start: u32, base: i32) -> Drawing<'a>
    requires { IsDrawable (state_value state.now) (IndexedCall count start base) }
    ensures items { (opened : List ℕ) → drawing_items (state_value state.now) opened result ≡ drawn_items (state_value state.now) opened (draw_indexed_primitives (state_value state.now) count start base) }
    ensures draws { Draws (draw_indexed_primitives (state_value state.now) count start base) result }
    ensures command { IsOf (IndexedCall count start base) result }
{
    let Some(topology) = state.topology else {
        return Drawing::Nothing;
    };
    Drawing::Triangles(Draw {
        topology,
        vertices: state.vertices,
        indices: Some(state.indices),
        count,
        start,
        base,
    })
}

/// Whether a predicate withholds what is drawn and cleared under it.
fn is_withheld(results: &[bool; 64], predicate: Option<(u32, bool)>) -> bool
    ensures { result ≡ withholds (told results.now) predicate }
{
    match predicate {
        Some((query, value)) => is_marked(results, query) == value,
        None => false,
    }
}

/// What a command draws or clears under a state and these results of queries.
pub fn drawing_of<'a, A: Allocator>(
    command: &Command<A>,
    state: &State<'a>,
    results: &[bool; 64],
) -> Drawing<'a>
    requires { IsDrawable (state_value state.now) (command_value command.now) }
    ensures items { (opened : List ℕ) → drawing_items (state_value state.now) opened result ≡ performed_items (told results.now) (state_value state.now) opened (command_value command.now) }
    ensures draws { Draws (drawn_by (state_value state.now) (command_value command.now)) result }
    ensures command { IsOf (command_value command.now) result }
{
    if is_withheld(results, state.predicate) {
        return Drawing::Nothing;
    }
    match command {
        Command::Draw(count, start) => plain_draw(state, *count, *start),
        Command::DrawIndexed(count, start, base) => indexed_draw(state, *count, *start, *base),
        Command::ClearColor(rgba) => Drawing::ClearColor(*rgba),
        Command::ClearDepthStencil(depth, stencil) => Drawing::ClearDepthStencil(DepthStencil {
            depth: *depth,
            stencil: *stencil,
        }),
        _ => Drawing::Nothing,
    }
}
