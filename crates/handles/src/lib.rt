//! Devices, deferred contexts, command lists and players of scripts in C's hands.
//!
//! C holds each by a handle, a struct of one pointer that may be null. The pointer's type says nothing of what is behind it, and no
//! function of this crate but `lend` and `back` looks at it. A handle is seen by contracts as the value that it holds, or none: so a
//! call by a handle is proved like any other.
#![tactic(auto)]

mod context;
mod device;
mod list;
mod playing;

pub use context::ContextHandle;
pub use device::DeviceHandle;
pub use list::ListHandle;
pub use playing::PlayerHandle;

/// What is behind a handle, as C sees it.
#[derive(Drop)]
pub struct Opaque {}
