//! The triangles of a list that is compiled, by their numbers.
//!
//! A draw that comes again names the triangles that it left before, since a list is often executed several times in a
//! run. Draws are compared vertex by vertex, so a triangle is found again only where it is the same.

ghost use Rattle.std.specs.Prelude.{◌≡◌, ◌≤◌, ◌<◌, ◌-◌, ◌++◌, ◌∷◌, [], drop, length, slice_get, IfOk, IfSome, OnOk, Some};
ghost use Rattle.gfxspec.specs.Assembly.{part};
ghost use Rattle.assemble.specs.Drawing.{IsInRange, triangles_of};
ghost use Rattle.command.specs.Seen.{state_value};
ghost use Rattle.binner.specs.Setups.{AreSetups};

use crate::earlier::{EarlierDraw, remembered};
use crate::setup::TriSetup;
use assemble::Draw;
use cmdlist::State;
use gfxspec::{Size, Vertex};
use std::alloc::{AllocError, Allocator};
use std::marker::Model;
use std::ops::Range;

/// How many places there are by which draws are found.
const PLACES: usize = 4096;

/// The place of a draw of these vertices, by the first of them.
fn place_of(vertices: &[Vertex]) -> usize {
    let Some(first) = vertices.first() else {
        return 0;
    };
    let across = first.x.unsigned_abs().wrapping_mul(0x9E37_79B1);
    let down = first.y.unsigned_abs().wrapping_mul(0x85EB_CA77);
    let deep = first.z.wrapping_mul(0xC2B2_AE3D);
    ((across ^ down ^ deep) >> 20) as usize
}

/// Puts the number of a draw in its place. The places are made with the first draw.
fn put_number<A: Allocator + Copy>(
    places: &mut Vec<u16, A>,
    place: usize,
    number: u16,
) -> Result<(), AllocError> {
    if places.is_empty() {
        *places = Vec::from_elem(*places.allocator(), 0, PLACES)?;
    }
    if let Some(there) = places.get_mut(place) {
        *there = number;
    }
    Ok(())
}

/// Triangles in the order in which they were set up, and the draws that are remembered of them. At a place stands the
/// number of the last draw that has it. Contracts see the table as its triangles.
#[derive(Drop)]
pub(crate) struct TriangleTable<A: Allocator> {
    setups: Vec<TriSetup, A>,
    draws: Vec<EarlierDraw<A>, A>,
    places: Vec<u16, A>,
}

impl<A: Allocator> Model for TriangleTable<A> {
    ghost use Rattle.std.specs.Prelude.{List};
    ghost use Rattle.binner.specs.declared.setup.TriSetup.{TriSetup};

    ghost Value = { List TriSetup };

    ghost use Rattle.binner.specs.Remembered.{AreRemembered};

    ghost view = { λ t. t.setups.items };

    ghost invariant = { λ t. AreRemembered t.setups.items t.draws.items };
}

impl<A: Allocator + Copy> TriangleTable<A> {
    /// No triangle, and room for so many.
    pub(crate) fn with_room(alloc: A, triangles: usize) -> Result<Self, AllocError>
        ensures { IfOk result (λ table. table ≡ []) }
    {
        Ok(TriangleTable {
            setups: Vec::with_capacity(alloc, triangles)?,
            draws: Vec::new(alloc),
            places: Vec::new(alloc),
        })
    }

    /// How many triangles there are.
    #[inline(always)]
    pub(crate) fn len(&self) -> usize
        ensures { result ≡ length self.now }
    {
        self.setups.len()
    }

    /// The triangle of a number.
    #[inline(always)]
    pub(crate) fn get(&self, number: usize) -> &TriSetup
        requires { number < length self.now }
        ensures { slice_get self.now number ≡ Some result.now }
    {
        &self.setups[number]
    }

    /// Puts a triangle behind the others.
    #[inline(always)]
    pub(crate) fn push(&mut self, setup: TriSetup) -> Result<(), AllocError>
        ensures pushed { OnOk result (self.new ≡ self.old ++ setup ∷ []) }
    {
        self.setups.push(setup)?;
        Ok(())
    }

    /// The triangles alone.
    pub(crate) fn into_setups(self) -> Vec<TriSetup, A>
        ensures { result.items ≡ self }
    {
        self.setups
    }

    /// The numbers of the triangles that the same draw left before, under the same rasterizer state and scissor
    /// rectangle.
    pub(crate) fn find(
        &self,
        draw: &Draw<'_>,
        state: &State<'_>,
        size: Size,
    ) -> Option<Range<usize>>
        requires { IsInRange draw.now }
        ensures past { IfSome result (λ numbers. numbers.end ≤ length self.now) }
        ensures setups { IfSome result (λ numbers. AreSetups (state_value state.now) size (triangles_of draw.now) (part (numbers.end - numbers.start) numbers.start self.now)) }
    {
        let vertices = remembered(draw)?;
        let place = *self.places.get(place_of(vertices))?;
        let earlier = self.draws.get(place as usize)?;
        if !earlier.is_of(draw.topology, vertices, state, size) {
            return None;
        }
        Some(earlier.first..earlier.past)
    }

    /// Remembers a draw whose triangles stand from a number on.
    pub(crate) fn remember(
        &mut self,
        draw: &Draw<'_>,
        state: &State<'_>,
        size: Size,
        first: usize,
    ) -> Result<(), AllocError>
        requires range { IsInRange draw.now }
        requires first { first ≤ length self.old }
        requires setups { AreSetups (state_value state.now) size (triangles_of draw.now) (drop first self.old) }
        ensures same { self.new ≡ self.old }
    {
        let Some(vertices) = remembered(draw) else {
            return Ok(());
        };
        let Ok(number) = u16::try_from(self.draws.len()) else {
            return Ok(());
        };
        let alloc = *self.draws.allocator();
        let vertices = Vec::from_slice(alloc, vertices)?;
        put_number(&mut self.places, place_of(vertices.as_slice()), number)?;
        self.draws.push(EarlierDraw {
            topology: draw.topology,
            vertices,
            raster: state.raster,
            scissor: state.scissor,
            size,
            first,
            past: self.setups.len(),
        })?;
        Ok(())
    }
}
