//! What many values lie between, eight lanes side by side.

ghost use Rattle.std.specs.Prelude.{◌≡◌, ℕ, ◌<◌, ◌≤◌, length, min, max, slice_index};

use std::simd::prelude::*;

/// What the values that were looked at lie between, lane by lane.
#[derive(Clone, Copy)]
pub(crate) struct Extremes {
    pub(crate) least: u32x8,
    pub(crate) greatest: u32x8,
    pub(crate) ghost least_lanes: { length least ≡ 8 },
    pub(crate) ghost greatest_lanes: { length greatest ≡ 8 },
}

impl Extremes {
    /// Of no value.
    pub(crate) fn none() -> Extremes {
        Extremes {
            least: u32x8::splat(u32::MAX),
            greatest: u32x8::splat(0),
        }
    }

    /// With one value more in each lane.
    #[inline]
    pub(crate) fn with(self, values: &[u32; 8]) -> Extremes
        ensures least { (j : ℕ) → j < 8 → slice_index result.least j ≡ min (slice_index self.least j) (slice_index values.now j) }
        ensures greatest { (j : ℕ) → j < 8 → slice_index result.greatest j ≡ max (slice_index self.greatest j) (slice_index values.now j) }
    {
        let more = u32x8::from_array(*values);
        Extremes {
            least: self.least.simd_min(more),
            greatest: self.greatest.simd_max(more),
        }
    }

    /// The least of all lanes.
    pub(crate) fn least_of_all(&self) -> u32
        ensures { (j : ℕ) → j < 8 → result ≤ slice_index self.now.least j }
    {
        let lanes = self.least.to_array();
        let mut least = u32::MAX;
        for j in 0..8usize {
            least = least.min(lanes[j]);
        }
        least
    }

    /// The greatest of all lanes.
    pub(crate) fn greatest_of_all(&self) -> u32
        ensures { (j : ℕ) → j < 8 → slice_index self.now.greatest j ≤ result }
    {
        let lanes = self.greatest.to_array();
        let mut greatest = 0;
        for j in 0..8usize {
            greatest = greatest.max(lanes[j]);
        }
        greatest
    }
}
