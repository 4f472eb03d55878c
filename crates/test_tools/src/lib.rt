//! What tests of several crates share: calls as data, the place where threads meet, and the four of an array, each by
//! itself.
//!
//! It stands in a crate of its own because tests stand in two, `conformance_parts` and `conformance`. Nothing here judges:
//! what must hold is asked by the tests themselves, which alone may end the process.
#![tactic(auto)]

mod calls;
mod four;
mod meeting;

pub use calls::{Call, list_of, record_all};
pub use four::apart;
pub use meeting::{AllAtOnce, Meeting};
