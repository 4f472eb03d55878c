//! The device for programs in Rattle: what a program names that draws by calls (Microsoft Learn, "Introduction to a Device in
//! Direct3D 11", "Immediate and Deferred Rendering"). Nothing is defined here but `while_crew_works`; the rest is handed on.
//!
//! **To draw.** `ImmediateContext::new` makes a target of a size in pixels, and the context that draws on it. What is recorded
//! stands in the trait `DeviceContext`, which both kinds of context have: vertices (`Vertex`, in 1/65,536 pixel), indices and
//! their `Topology`, states (`RasterState`, `DepthStencilState` and `BlendState`, each made once of a description), the scissor
//! rectangle, predicates, draws, clears, and the begin and end of queries. A refused call is a `GfxError`, and changes nothing.
//!
//! **To ask.** `get_data_alone` tells the count of a query, `pixel_alone` what a pixel holds; both run what is pending. Behind
//! `flush_alone` the planes are read from `target`: eight pixels at a time by `Target::colors`, `depths` and `stencils`.
//!
//! **Lists.** A `DeferredContext` records likewise and draws nothing; `finish` makes a `CommandList` of it. A list is executed by
//! `enqueue_execution_alone`, or by `execute_alone`, which runs at once, as often as wanted, on any device.
//!
//! **Recorders in threads.** `Ports::new` gives four rights to send (`PortPass`), one for a thread each, and one to take out
//! (`DrainPass`). What a port sent is taken whole, once and in order; `settle` shows it when the passes are back.
//!
//! **Workers.** Calls without `_alone` take a number of workers, up to 15, that start for the call. A `RunCrew` at its `Bells` has
//! threads that stay for many calls, those that end in `_by_crew`, made in the body of `while_crew_works`.
#![tactic(auto)]

mod crew;

pub use cmdlist::{Buffer, Command, CommandList, DeferredContext, DeviceContext};
pub use crew::while_crew_works;
pub use gfxspec::{
    BUFFER_LIMIT, COORDINATE_LIMIT, Compare, Cull, DEPTH_MAX, DepthStencil, GfxError, ISSUE_LIMIT,
    LIST_LIMIT, LogicOp, Pixel, PixelRect, QUERY_LIMIT, SIDE_LIMIT, STRIP_CUT, Size, StencilOp,
    Topology, Vertex, WORKER_LIMIT,
};
pub use immediate::{ImmediateContext, RunCrew};
pub use port::{DrainPass, PortPass, Ports, Submission};
pub use states::{
    BlendDesc, BlendState, ColorMask, DepthStencilDesc, DepthStencilState, Face, RasterDesc,
    RasterState,
};
pub use tileblock::Target;
pub use workers::{Bells, Gate, NoGate};
