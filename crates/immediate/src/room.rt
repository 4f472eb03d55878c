//! What decides how commands run: how many they are, and how many triangles they draw.

use cmdlist::Commands;
use gfxspec::LIST_LIMIT;
use std::alloc::Allocator;

/// How many commands and how many triangles run as one at most: as many as a list has.
const MOST: usize = LIST_LIMIT as usize;

/// From how many triangles on a crew compiles a list in segments. Fewer are compiled sooner than threads wake.
const LEAST_CUT: usize = 192;

/// Into how many segments a list is cut for each who compiles. Segments of all lists of a run are shared out evenly then.
const SEGMENTS_EACH: usize = 2;

/// How much of a run's room commands take: how many they are, and how many triangles they draw.
#[derive(Clone, Copy)]
pub(crate) struct Room {
    commands: usize,
    triangles: usize,
}

impl Room {
    /// What nothing takes.
    pub(crate) fn none() -> Self {
        Room {
            commands: 0,
            triangles: 0,
        }
    }

    /// What the commands of a list take, or the pending ones.
    pub(crate) fn of<A: Allocator>(commands: &Commands<'_, A>) -> Self {
        Room {
            commands: commands.as_slice().len(),
            triangles: commands.triangles() as usize,
        }
    }

    /// What both take.
    pub(crate) fn and(self, other: Room) -> Self {
        Room {
            commands: self.commands.saturating_add(other.commands),
            triangles: self.triangles.saturating_add(other.triangles),
        }
    }

    /// Whether there is so much.
    pub(crate) fn is_there(self) -> bool {
        self.commands <= MOST && self.triangles <= MOST
    }

    /// Whether it is worth compiling by a crew.
    pub(crate) fn is_large(self) -> bool {
        self.triangles >= LEAST_CUT
    }

    /// Behind how many triangles a list that takes so much is cut, for so many workers beside the caller.
    pub(crate) fn triangles_each(self, workers: u32) -> u32 {
        if workers == 0 || !self.is_large() {
            return u32::MAX;
        }
        let segments = SEGMENTS_EACH * (workers as usize + 1);
        (self.triangles.min(MOST) / segments.max(1)) as u32 + 1
    }
}
