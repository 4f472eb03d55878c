//! Tests of what no contract says, over what the crates below hand out: scripts from bytes to bytes (`scripts`), the calls
//! of the immediate context that no script reaches (`contexts`), histories of pixels (`histories`), crews and their threads
//! (`crews`, `segments`), and the command line (`words`). Tests of the parts below the immediate context stand in
//! `conformance_parts`.
//!
//! They stand in a crate of their own because a crate with tests is proved once more with them. Nothing here is handed out.
#![tactic(auto)]

#[cfg(test)]
mod contexts;
#[cfg(test)]
mod crews;
#[cfg(test)]
mod histories;
#[cfg(test)]
mod scripts;
#[cfg(test)]
mod segments;
#[cfg(test)]
mod words;
