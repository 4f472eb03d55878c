//! The device as a C library that is driven by calls: what C calls, and nothing else. `library/yuzuratchet_device.h` has its
//! functions as C reads them.
//!
//! C holds a device, a deferred context, a list or a player of scripts by a handle, a struct of one pointer. A call by a handle that
//! holds none isn't allowed: `library/yuzuratchet_device.c` looks for that. Each call is answered by 0 or the number of its refusal,
//! and each contract is that of the function called, for the values that the handles hold before and behind.
#![tactic(auto)]

mod contexts;
mod descriptions;
mod devices;
mod numbers;
mod on_context;
mod on_device;
mod playing;
mod rows;
mod telling;

pub use descriptions::{
    BlendDescription, DepthStencilDescription, FaceDescription, RasterDescription,
};
pub use devices::PixelTold;
pub use pixelevents::EventTold;
pub use playing::LineTold;
pub use rows::Cell;
