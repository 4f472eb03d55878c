//! How many triangles a draw has, or why it is refused.

ghost use Rattle.std.specs.Prelude.{◌≡◌, ◌≤◌, ℕ, List, length, Some, IfOk, IfErr, OnOk, None};
ghost use Rattle.std.specs.List.{list_all};
ghost use Rattle.gfxspec.specs.Assembly.{draw_primitives, draw_indexed_primitives};
ghost use Rattle.gfxspec.specs.Refusals.{first_row, is_used_well};
ghost use Rattle.gfxspec.specs.Accepted.{AreSound};
ghost use Rattle.command.specs.Seen.{state_value};
ghost use Rattle.cmdlist.specs.DrawRows.{draw_rows, draw_indexed_rows};

use assemble::{Draw, triangle_count};
use command::State;
use gfxspec::{GfxError, STRIP_CUT, Topology};

/// Whether an index with the base is a vertex, or the cut of a strip.
fn is_index_used_well(topology: Topology, count: usize, base: i32, index: u16) -> bool
    requires { count ≤ 65536 }
    ensures { result ≡ is_used_well (Some topology) count base index }
{
    let place = i64::from(index) + i64::from(base);
    let is_cut = matches!(topology, Topology::TriangleStrip) && index == STRIP_CUT;
    is_cut || (0 <= place && place < count as i64)
}

/// Whether all drawn indices are used well.
fn are_indices_used_well(topology: Topology, count: usize, base: i32, indices: &[u16]) -> bool
    requires { count ≤ 65536 }
    ensures { result ≡ list_all (is_used_well (Some topology) count base) indices.now }
{
    indices
        .iter()
        .all(|index| is_index_used_well(topology, count, base, *index))
}

/// The number of triangles of a draw without indices. Refused with TopologyUnset, DrawRange.
pub(crate) fn drawn_triangles(state: &State<'_>, count: u32, start: u32) -> Result<u32, GfxError>
    requires { AreSound (state_value state.now) }
    ensures count { IfOk result (λ n. n ≡ length (draw_primitives (state_value state.now) count start)) }
    ensures accepted { OnOk result (first_row (draw_rows (state_value state.now) count start) ≡ None) }
    ensures refused { IfErr result (λ e. first_row (draw_rows (state_value state.now) count start) ≡ Some e) }
{
    let topology = state.topology.ok_or(GfxError::TopologyUnset)?;
    if u64::from(start) + u64::from(count) > state.vertices.len() as u64 {
        return Err(GfxError::DrawRange);
    }
    let draw = Draw {
        topology,
        vertices: state.vertices,
        indices: None,
        count,
        start,
        base: 0,
    };
    Ok(triangle_count(&draw))
}

/// The number of triangles of a draw by indices. Refused with TopologyUnset, DrawRange, IndexRange.
pub(crate) fn drawn_indexed_triangles(
    state: &State<'_>,
    count: u32,
    start: u32,
    base: i32,
) -> Result<u32, GfxError>
    requires { AreSound (state_value state.now) }
    ensures count { IfOk result (λ n. n ≡ length (draw_indexed_primitives (state_value state.now) count start base)) }
    ensures accepted { OnOk result (first_row (draw_indexed_rows (state_value state.now) count start base) ≡ None) }
    ensures refused { IfErr result (λ e. first_row (draw_indexed_rows (state_value state.now) count start base) ≡ Some e) }
{
    let topology = state.topology.ok_or(GfxError::TopologyUnset)?;
    if u64::from(start) + u64::from(count) > state.indices.len() as u64 {
        return Err(GfxError::DrawRange);
    }
    let first = start as usize;
    let used = &state.indices[first..first + count as usize];
    if !are_indices_used_well(topology, state.vertices.len(), base, used) {
        return Err(GfxError::IndexRange);
    }
    let draw = Draw {
        topology,
        vertices: state.vertices,
        indices: Some(state.indices),
        count,
        start,
        base,
    };
    Ok(triangle_count(&draw))
}
