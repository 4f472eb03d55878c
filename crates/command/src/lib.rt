//! Calls that record, as values: what a script says, a context records, and a list keeps; and as the methods of a context,
//! each proved once for both kinds of context (Microsoft Learn, ID3D11DeviceContext).
//!
//! One type from the script to the tiles: a line that is read holds a `Command`, recording shares it, and a list is made
//! of them. Vertices and indices stand in buffers that are shared, so that they are copied from their bytes once. The
//! eight kinds of state that commands set are `Settings` for who owns them, and `State` for who goes along a list.
#![tactic(auto)]

mod buffer;
mod command;
mod settings;

pub use buffer::Buffer;
pub use command::{Command, DeviceContext};
pub use settings::{Settings, State};
