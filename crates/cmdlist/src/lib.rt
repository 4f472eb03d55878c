//! Deferred contexts and the command lists that they record (Microsoft Learn, ID3D11DeviceContext, "Command List").
//!
//! A call is a value (`Command`), and the trait `DeviceContext` records it: both kinds of context have this one surface,
//! and each call of it is proved once.
//!
//! A deferred context is seen by contracts as the commands of the list that it records, each accepted behind those before it; all
//! that the list means (settings by looking back, items, issues, open queries) follows from them by the definitions. The
//! code keeps beside the commands what it needs to answer each refusal in constant time, and its type says that this is
//! what the definitions give. Buffers are shared between the command that set them and the settings that are kept, so
//! that no call copies a vertex but the ones that are handed a slice of them.
#![tactic(auto)]

mod context;
mod drawing;
mod draws;
mod list;
mod queries;

pub use command::{Buffer, Command, DeviceContext, Settings, State};
pub use context::DeferredContext;
pub use draws::{Drawing, drawing_of};
pub use list::{CommandList, Commands};
