//! A script that is played line by line on a device that stays: eight deferred contexts with the lists that they have
//! finished, beside an immediate context of the caller's.
//!
//! A line is read as a script's lines are (crate scenetext), and is then the call that it spells: of `cmdlist` on its
//! deferred context, or of `immediate`. So what the lines leave is what the script leaves that has them behind its target.
#![tactic(auto)]

mod calls;
mod context;
mod law;
mod lines;

pub use law::lines_leave_what_their_script_leaves;
pub use lines::Player;
