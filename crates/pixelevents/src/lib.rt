//! The history of a pixel: which items of a list touched it, what each found there and left there, and which tests it passed.
//!
//! An item is a clear, or a triangle of a draw. A history is the fold that says what items leave at a pixel (gfxspec), written
//! down: nothing is told of a pixel in it that the pixel and the counts of issues don't tell too, as the laws here say.
#![tactic(auto)]

ghost use Rattle.pixelevents.specs.Laws.{LastIsWhatIsLeft, CountsAreOfIssues, EachFindsWhatWasLeft, HistoriesFollow, OpenIssuesChangeNothing, FailedWritesNoColor};
ghost use Rattle.pixelevents.specs.Places.{PlacesName, PlacesNameTriangles};
ghost use Rattle.pixelevents.specs.Origins.{PendingComes, ExecutedComes};
ghost use Rattle.pixelevents.specs.Sessions.{SessionEndsShown, PendingAdds, ExecutionAdds, FlushAddsNothing};

mod told;

use gfxspec::Pixel;
pub use told::{EventTold, fill_events};

/// What an item did to a pixel that it touched (Direct3D 11.3 Functional Specification, "Output Merger Stage").
#[derive(Clone, Copy, Debug, PartialEq, Eq)]
pub struct Event {
    /// Its number among the items, from 0 on.
    pub item: u64,
    /// Whether the stencil test passed; a clear has none to fail.
    pub stencil_passed: bool,
    /// Whether the depth test passed; a clear has none to fail.
    pub depth_passed: bool,
    /// Whether both passed.
    pub passed: bool,
    /// What the pixel held before it.
    pub before: Pixel,
    /// What it left there.
    pub after: Pixel,
}

/// Where an item stands in its list of commands.
#[derive(Clone, Copy, Debug, PartialEq, Eq)]
pub struct Place {
    /// The number of its command in the list, from 0 on.
    pub command: u32,
    /// The number of the triangle in its draw, from 0 on, as the draw assembles them; 0 for a clear.
    pub triangle: u32,
}

/// Which step of a session an item belongs to, and where it stands in the list that the step executes.
#[derive(Clone, Copy, Debug, PartialEq, Eq)]
pub struct Origin {
    /// The number of the step, from 0 on.
    pub step: u64,
    /// Its place in the list. A step that records a command is as a list of this command alone.
    pub place: Place,
}

/// An event, and what it comes from.
#[derive(Clone, Copy, Debug, PartialEq, Eq)]
pub struct NamedEvent {
    pub event: Event,
    /// The line of a script that recorded or executed it on the immediate context, counted from 1; 0 without a script.
    pub line: u64,
    /// Its place in the list that the line executes, where a line that records a command is as a list of this command
    /// alone; without a script its place among the pending commands.
    pub place: Place,
}

/// What the history of a pixel says is what its items leave there and what they count.
pub fn history_laws()
    ensures last { LastIsWhatIsLeft }
    ensures counts { CountsAreOfIssues }
    ensures chain { EachFindsWhatWasLeft }
    ensures parts { HistoriesFollow }
    ensures issues { OpenIssuesChangeNothing }
    ensures color { FailedWritesNoColor }
{}

/// The place of an item names the item of its number.
pub fn place_laws()
    ensures items { PlacesName }
    ensures triangles { PlacesNameTriangles }
{}

/// The items of the pending commands of a context that stands behind the steps of a session come from the steps that
/// recorded their commands, and the items of a list from the step that executes it.
pub fn origin_laws()
    ensures pending { PendingComes }
    ensures executed { ExecutedComes }
{}

/// What each run of a session adds to the history of a pixel.
pub fn session_laws()
    ensures ends { SessionEndsShown }
    ensures pending { PendingAdds }
    ensures executed { ExecutionAdds }
    ensures flushed { FlushAddsNothing }
{}
