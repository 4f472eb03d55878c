//! What each deferred context of a scene records, alone or in threads beside the immediate context (Microsoft Learn,
//! "Introduction to Multithreading in Direct3D 11": lists recorded on several threads, executed by one).
//!
//! A context's lists and its first refused line follow from its own lines alone, whatever the others do. So the contexts
//! are recorded apart, contexts k and k + 4 by one recorder, while the caller takes the lines of the immediate context and
//! asks for lists by context and number, through `ListSource`. Lines are counted from 0 here.
//!
//! From a line to its context: `deal` goes over the lines once, and says whose each is. `receive` starts a thread for each
//! pair of contexts that has lines (`recorder::start`), and `record_alone` has none; both come to `context::record_lines`,
//! which takes the pair's lines in one pass, up to the first that each refuses: a line's command is recorded by a
//! `cmdlist::DeferredContext`, and a finished list goes by the pair's port to the caller (`sink::ListSender`), or is kept.
//!
//! The trick: each list carries its context and number. While threads run, nothing else is known of one that came by a
//! port, so what the caller knows stands under one premise, that each is the list of that context and number. At the end the
//! recorders' promises (all that was sent is so) and the settled ports (taken is sent) give it, and no list was looked at
//! twice.
#![tactic(auto)]

mod alone;
mod context;
mod dealing;
mod ports;
mod received;
mod recorder;
mod refusal;
mod rows;
mod sink;
mod source;

pub use alone::{RecordedLists, record_alone};
pub use dealing::{CALLER, DealtLines, deal};
pub use ports::{ListPorts, Passes, Returned, open_ports, settle};
pub use received::{ReceivedLists, receive};
pub use recorder::RecorderSetup;
pub use refusal::{RefusedLine, earlier};
pub use source::ListSource;
