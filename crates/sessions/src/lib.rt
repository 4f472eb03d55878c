//! Sessions: a whole script, from its bytes to the answer lines and the image.
//!
//! The deferred contexts are recorded apart (crate recorders), and the immediate context takes its own lines and asks for
//! their lists. It may answer lines behind one that another context refuses; in the end the least refused line counts, and the
//! answers of the lines before it stay. `session_alone` records first and draws then, on the caller's thread; `session` draws
//! while up to four threads record, with workers beside the caller.
#![tactic(auto)]

mod bytes;
mod ending;
mod law;
mod outcome;
mod perform;
mod play;
mod run;
mod telling;
mod threads;
mod traced;
mod tracing;

pub use bytes::{session, session_alone};
pub use law::calls_leave_what_their_script_leaves;
pub use outcome::{Ended, SessionFault};
pub use telling::{NoHistory, history};
