//! Tests of what no contract says, over what the crates below the immediate context hand out: lists, recorded and compiled
//! (`recording`, `compiling`, `setting_up`), tiles in any order (`orders`), the reading of scripts (`reading`), blocks,
//! boards, ports and their threads (`blocks`, `boards`, `ports`), devices (`devices`), numbers and texts of refusals
//! (`refusals`), and the allocator that refuses a growth (`allocator`).
//!
//! They stand in a crate of their own because a crate with tests is proved once more with them. Nothing here is handed out.
#![tactic(auto)]

#[cfg(test)]
mod allocator;
#[cfg(test)]
mod blocks;
#[cfg(test)]
mod boards;
#[cfg(test)]
mod compiling;
#[cfg(test)]
mod devices;
#[cfg(test)]
mod orders;
#[cfg(test)]
mod ports;
#[cfg(test)]
mod reading;
#[cfg(test)]
mod recording;
#[cfg(test)]
mod refusals;
#[cfg(test)]
mod setting_up;
