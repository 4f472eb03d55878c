//! The stencil test of eight pixels, and of two rows of them.

ghost use Rattle.std.specs.Prelude.{◌≡◌, ℕ, ◌<◌, ◌==◌, true, IsTrue, bit_and, bit_or, bit_xor, slice_index, if◌then◌else◌, min, ◌+◌, ◌-◌, ◌%◌, ◌++◌};
ghost use Rattle.std.specs.Int.{bit_at};
ghost use Rattle.gfxspec.specs.DepthStencil.{compares, masked};
ghost use Rattle.lanes.specs.Stencil.{has, reference_passes, stencil_after};
ghost use Rattle.lanes.specs.ByteChange.{IsChange, AreChanges, changed_at};

use gfxspec::{Compare, StencilOp};
use states::DepthStencilState;
use std::marker::Model;
use std::simd::prelude::*;

/// What an operation does to a stored value, without a case: it goes up by `raise`, no further than 255, then down by
/// `lower`, no further than 0, then up by `turn`, round from 255 to 0, and then the bits of `flip` turn over.
#[derive(Clone, Copy, Debug)]
struct ByteChange {
    raise: u8,
    lower: u8,
    turn: u8,
    flip: u8,
}

impl ByteChange {
    /// The change of an operation by a reference.
    fn of(op: StencilOp, reference: u8) -> ByteChange
        ensures { IsChange result op reference }
    {
        let (raise, lower, turn, flip) = match op {
            StencilOp::Keep => (0, 0, 0, 0),
            StencilOp::Zero => (0, 255, 0, 0),
            StencilOp::Replace => (0, 255, reference, 0),
            StencilOp::IncrSat => (1, 0, 0, 0),
            StencilOp::DecrSat => (0, 1, 0, 0),
            StencilOp::Invert => (0, 0, 0, 255),
            StencilOp::Incr => (0, 0, 1, 0),
            StencilOp::Decr => (0, 0, 255, 0),
        };
        ByteChange {
            raise,
            lower,
            turn,
            flip,
        }
    }
}

/// A change of eight values side by side: each of its numbers stands there eight times, so that a loop over spans reads them as
/// they are.
#[derive(Clone, Copy, Debug)]
struct ByteChanges {
    raise: [u8; 8],
    lower: [u8; 8],
    turn: [u8; 8],
    flip: [u8; 8],
}

impl ByteChanges {
    /// The change of an operation by a reference.
    fn of(op: StencilOp, reference: u8) -> ByteChanges
        ensures { AreChanges result op reference }
    {
        let change = ByteChange::of(op, reference);
        ByteChanges {
            raise: [change.raise; 8],
            lower: [change.lower; 8],
            turn: [change.turn; 8],
            flip: [change.flip; 8],
        }
    }

    /// Eight values changed.
    #[inline(always)]
    fn onto_each(&self, stored: &[u8; 8]) -> [u8; 8]
        ensures { (j : ℕ) → j < 8 → slice_index result j ≡ changed_at self.now j (slice_index stored.now j) }
    {
        let ByteChanges {
            raise,
            lower,
            turn,
            flip,
        } = *self;
        turned_each(lowered_each(raised_each(*stored, raise), lower), turn, flip)
    }

    /// Sixteen values changed, as two rows of eight.
    #[inline(always)]
    fn onto_both(&self, stored: [u8; 16]) -> [u8; 16]
        ensures { (j : ℕ) → j < 8 → (slice_index result j ≡ changed_at self.now j (slice_index stored j)) × (slice_index result (8 + j) ≡ changed_at self.now j (slice_index stored (8 + j))) }
    {
        let raised = raised_both(stored, joined(&self.raise, &self.raise));
        let lowered = lowered_both(raised, joined(&self.lower, &self.lower));
        let turn = joined(&self.turn, &self.turn);
        turned_both(lowered, turn, joined(&self.flip, &self.flip))
    }
}

/// The stencil test of a depth-stencil state, of one face and with one reference, made once for many pixels. Contracts
/// see it as these three. Numbers that stand beside eight values stand there eight times.
#[derive(Debug, Drop)]
pub struct StencilTest {
    state: DepthStencilState,
    front: bool,
    reference: u8,
    func: Compare,
    compared: [u8; 8],
    read_mask: [u8; 8],
    write_mask: [u8; 8],
    kept_mask: [u8; 8],
    fail: ByteChanges,
    depth_fail: ByteChanges,
    pass: ByteChanges,
    /// Whether the operation where both tests pass keeps what is stored, where the stencil test fails, and wherever.
    pass_keeps: bool,
    fail_keeps: bool,
    all_keep: bool,
}

impl Model for StencilTest {
    ghost use Rattle.lanes.specs.Stencil.{StencilRule};
    ghost use Rattle.lanes.specs.StencilInside.{rule_of, IsTest};

    ghost Value = { StencilRule };

    ghost view = { rule_of };

    ghost invariant = { IsTest };
}

impl StencilTest {
    /// The test of a state for front-facing or back-facing triangles.
    #[inline]
    pub fn of(state: &DepthStencilState, front: bool, reference: u8) -> StencilTest
        ensures { result ≡ record { setting = state.now; face = if front then state.now.front else state.now.back; reference = reference } }
    {
        let face = if front { state.front() } else { state.back() };
        let mask = state.write_mask();
        let pass_keeps = face.pass == StencilOp::Keep;
        let fail_keeps = face.fail == StencilOp::Keep;
        StencilTest {
            state: *state,
            front,
            reference,
            func: face.func,
            compared: [reference & state.read_mask(); 8],
            read_mask: [state.read_mask(); 8],
            write_mask: [mask; 8],
            kept_mask: [!mask; 8],
            fail: ByteChanges::of(face.fail, reference),
            depth_fail: ByteChanges::of(face.depth_fail, reference),
            pass: ByteChanges::of(face.pass, reference),
            pass_keeps,
            fail_keeps,
            all_keep: pass_keeps && fail_keeps && face.depth_fail == StencilOp::Keep,
        }
    }

    /// Whether each of the covered values is surely kept, where bit j of `passing` says whether the stencil test passes at
    /// value j, and bit j of `deep` whether the depth test does.
    #[inline(always)]
    pub fn keeps(&self, cover: u8, passing: u8, deep: u8) -> bool
        ensures { IsTrue result → (j v : ℕ) → j < 8 → has cover j ≡ true → v < 256 → stencil_after self.now (has passing j) (has deep j) v ≡ v }
    {
        if cover & passing == 0 {
            return self.fail_keeps;
        }
        if cover & (passing & deep) == cover {
            return self.pass_keeps;
        }
        self.all_keep
    }

    /// Whether the test passes at every value.
    #[inline(always)]
    pub fn always_passes(&self) -> bool
        ensures { IsTrue result → (v : ℕ) → reference_passes self.now v ≡ true }
    {
        self.func == Compare::Always
    }

    /// Bit j is set where the test passes at stored value j
    /// (Direct3D 11.3 Functional Specification, "Output Merger Stage", depth and stencil state).
    #[inline(always)]
    pub fn passes(&self, stored: &[u8; 8]) -> u8
        ensures { (j : ℕ) → j < 8 → (bit_at result j == 1) ≡ reference_passes self.now (slice_index stored.now j) }
    {
        if self.func == Compare::Always {
            return 255;
        }
        byte_mask(self.func, &self.compared, &under(self.read_mask, *stored))
    }

    /// What one operation leaves of eight values, in the bits of the write mask.
    #[inline(always)]
    fn changed_by(&self, change: ByteChanges, stored: &[u8; 8]) -> [u8; 8]
        ensures { (j : ℕ) → j < 8 → slice_index result j ≡ masked self.now.setting.write_mask (changed_at change j (slice_index stored.now j)) (slice_index stored.now j) }
    {
        self.masked_each(&change.onto_each(stored), stored)
    }

    /// The bits of new values where the write mask has ones, and else those of the old.
    #[inline(always)]
    fn masked_each(&self, new: &[u8; 8], old: &[u8; 8]) -> [u8; 8]
        ensures { (j : ℕ) → j < 8 → slice_index result j ≡ masked self.now.setting.write_mask (slice_index new.now j) (slice_index old.now j) }
    {
        either_each(under(self.write_mask, *new), under(self.kept_mask, *old))
    }

    /// What is stored after the tests, where bit j of `passing` says whether the stencil test passes at value j, and
    /// bit j of `deep` whether the depth test does. Where both have one outcome at all values, one operation is done and no
    /// other.
    #[inline(always)]
    pub fn after(&self, stored: &[u8; 8], passing: u8, deep: u8) -> [u8; 8]
        ensures { (j : ℕ) → j < 8 → slice_index result j ≡ stencil_after self.now (has passing j) (has deep j) (slice_index stored.now j) }
    {
        if passing == 255 && deep == 0 {
            return self.changed_by(self.depth_fail, stored);
        }
        if passing == 255 && deep == 255 {
            return self.changed_by(self.pass, stored);
        }
        let passed = select_bytes8(
            deep,
            &self.pass.onto_each(stored),
            &self.depth_fail.onto_each(stored),
        );
        let new = select_bytes8(passing, &passed, &self.fail.onto_each(stored));
        self.masked_each(&new, stored)
    }

    /// What is stored after the tests at two rows of eight values, at each of which the stencil test passes, and the depth test has
    /// one outcome.
    #[inline(always)]
    pub fn after_rows(&self, first: &[u8; 8], second: &[u8; 8], deep: bool) -> ([u8; 8], [u8; 8])
        ensures first { (j : ℕ) → j < 8 → slice_index result.0 j ≡ stencil_after self.now true deep (slice_index first.now j) }
        ensures second { (j : ℕ) → j < 8 → slice_index result.1 j ≡ stencil_after self.now true deep (slice_index second.now j) }
    {
        let both = joined(first, second);
        if deep {
            self.both_masked(self.pass.onto_both(both), both)
        } else {
            self.both_masked(self.depth_fail.onto_both(both), both)
        }
    }

    /// The bits of new values where the write mask has ones, and else those of the old, of two rows.
    #[inline(always)]
    fn both_masked(&self, new: [u8; 16], old: [u8; 16]) -> ([u8; 8], [u8; 8])
        ensures first { (j : ℕ) → j < 8 → slice_index result.0 j ≡ masked self.now.setting.write_mask (slice_index new j) (slice_index old j) }
        ensures second { (j : ℕ) → j < 8 → slice_index result.1 j ≡ masked self.now.setting.write_mask (slice_index new (8 + j)) (slice_index old (8 + j)) }
    {
        let write = u8x16::from_array(joined(&self.write_mask, &self.write_mask));
        let keep = u8x16::from_array(joined(&self.kept_mask, &self.kept_mask));
        let stored = (u8x16::from_array(new) & write) | (u8x16::from_array(old) & keep);
        let both = stored.to_array();
        (front_of(&both), back_of(&both))
    }
}

/// Sixteen values: eight, and eight behind them.
#[inline(always)]
fn joined(front: &[u8; 8], back: &[u8; 8]) -> [u8; 16]
    ensures { result ≡ front.now ++ back.now }
{
    u8x8::from_array(*front)
        .shuffle(
            u8x8::from_array(*back),
            [0, 1, 2, 3, 4, 5, 6, 7, 8, 9, 10, 11, 12, 13, 14, 15],
        )
        .to_array()
}

/// The first eight of sixteen values.
#[inline(always)]
fn front_of(values: &[u8; 16]) -> [u8; 8]
    ensures { (j : ℕ) → j < 8 → slice_index result j ≡ slice_index values.now j }
{
    u8x16::from_array(*values).extract::<0, 8>().to_array()
}

/// The last eight of sixteen values.
#[inline(always)]
fn back_of(values: &[u8; 16]) -> [u8; 8]
    ensures { (j : ℕ) → j < 8 → slice_index result j ≡ slice_index values.now (8 + j) }
{
    u8x16::from_array(*values).extract::<8, 8>().to_array()
}

/// Sixteen values, each of which goes up by a number, no further than 255.
#[inline(always)]
fn raised_both(values: [u8; 16], by: [u8; 16]) -> [u8; 16]
    ensures { (j : ℕ) → j < 16 → slice_index result j ≡ min (slice_index values j + slice_index by j) 255 }
{
    u8x16::from_array(values)
        .saturating_add(u8x16::from_array(by))
        .to_array()
}

/// Sixteen values, each of which goes down by a number, no further than 0.
#[inline(always)]
fn lowered_both(values: [u8; 16], by: [u8; 16]) -> [u8; 16]
    ensures { (j : ℕ) → j < 16 → slice_index result j ≡ slice_index values j - slice_index by j }
{
    u8x16::from_array(values)
        .saturating_sub(u8x16::from_array(by))
        .to_array()
}

/// Sixteen values, each of which goes up by a number, round from 255 to 0, and then has bits turned over.
#[inline(always)]
fn turned_both(values: [u8; 16], by: [u8; 16], flip: [u8; 16]) -> [u8; 16]
    ensures { (j : ℕ) → j < 16 → slice_index result j ≡ bit_xor ((slice_index values j + slice_index by j) % 256) (slice_index flip j) }
{
    let turned = u8x16::from_array(values) + u8x16::from_array(by);
    (turned ^ u8x16::from_array(flip)).to_array()
}

/// Eight values, each of which goes up by a number, no further than 255.
#[inline(always)]
fn raised_each(values: [u8; 8], by: [u8; 8]) -> [u8; 8]
    ensures { (j : ℕ) → j < 8 → slice_index result j ≡ min (slice_index values j + slice_index by j) 255 }
{
    u8x8::from_array(values)
        .saturating_add(u8x8::from_array(by))
        .to_array()
}

/// Eight values, each of which goes down by a number, no further than 0.
#[inline(always)]
fn lowered_each(values: [u8; 8], by: [u8; 8]) -> [u8; 8]
    ensures { (j : ℕ) → j < 8 → slice_index result j ≡ slice_index values j - slice_index by j }
{
    u8x8::from_array(values)
        .saturating_sub(u8x8::from_array(by))
        .to_array()
}

/// Eight values, each of which goes up by a number, round from 255 to 0, and then has bits turned over.
#[inline(always)]
fn turned_each(values: [u8; 8], by: [u8; 8], flip: [u8; 8]) -> [u8; 8]
    ensures { (j : ℕ) → j < 8 → slice_index result j ≡ bit_xor ((slice_index values j + slice_index by j) % 256) (slice_index flip j) }
{
    let turned = u8x8::from_array(values) + u8x8::from_array(by);
    (turned ^ u8x8::from_array(flip)).to_array()
}

/// The bits of a mask in each of eight values.
#[inline(always)]
fn under(mask: [u8; 8], values: [u8; 8]) -> [u8; 8]
    ensures { (j : ℕ) → j < 8 → slice_index result j ≡ bit_and (slice_index values j) (slice_index mask j) }
{
    (u8x8::from_array(values) & u8x8::from_array(mask)).to_array()
}

/// The bits that either of two values has, of eight side by side.
#[inline(always)]
fn either_each(a: [u8; 8], b: [u8; 8]) -> [u8; 8]
    ensures { (j : ℕ) → j < 8 → slice_index result j ≡ bit_or (slice_index a j) (slice_index b j) }
{
    (u8x8::from_array(a) | u8x8::from_array(b)).to_array()
}

/// Bit j is set where the comparison holds of new value j, on the left, and old value j.
#[inline(always)]
fn byte_mask(func: Compare, new: &[u8; 8], old: &[u8; 8]) -> u8
    ensures { (j : ℕ) → j < 8 → (bit_at result j == 1) ≡ compares func (slice_index new.now j) (slice_index old.now j) }
{
    let new = u8x8::from_array(*new);
    let old = u8x8::from_array(*old);
    match func {
        Compare::Never => 0,
        Compare::Less => new.simd_lt(old).to_bitmask() as u8,
        Compare::Equal => new.simd_eq(old).to_bitmask() as u8,
        Compare::LessEqual => new.simd_le(old).to_bitmask() as u8,
        Compare::Greater => new.simd_gt(old).to_bitmask() as u8,
        Compare::NotEqual => new.simd_ne(old).to_bitmask() as u8,
        Compare::GreaterEqual => new.simd_ge(old).to_bitmask() as u8,
        Compare::Always => 255,
    }
}

/// Byte j of `a` where bit j is set, and else of `b`.
#[inline(always)]
pub fn select_bytes8(bits: u8, a: &[u8; 8], b: &[u8; 8]) -> [u8; 8]
    ensures { (j : ℕ) → j < 8 → slice_index result j ≡ (if bit_at bits j == 1 then slice_index a.now j else slice_index b.now j) }
{
    let places = u8x8::from_array([1, 2, 4, 8, 16, 32, 64, 128]);
    let picked = (u8x8::splat(bits) & places).simd_eq(places);
    picked
        .select(u8x8::from_array(*a), u8x8::from_array(*b))
        .to_array()
}
