//! Assembles the triangles of a draw, and says which way each faces.
//!
//! Vertices are in 1/65,536 pixel; nothing is snapped before `facing`. A draw's triangles come one at a time from the
//! places that are still to come: nothing is kept of earlier ones but the order in which a strip's next triangle takes
//! its places, so assembly takes no memory, and each index is looked up where it is used.
#![tactic(auto)]

mod draws;
mod places;
mod sides;

pub use draws::{Draw, places_law, triangle_count, triangles, uncut_triangles};
pub use places::{Tri, Triangles};
pub use sides::{culled, facing, facing_by_area};
