//! Events into an area of memory.

ghost use Rattle.std.specs.Prelude.{◌≡◌, ◌≤◌, length};
ghost use Rattle.pixelevents.specs.Named.{event_told, events_filled};

use crate::NamedEvent;

/// An event as an area has it: 48 bytes with no gaps. A test that passed is 1.
#[repr(C)]
#[derive(Clone, Copy, Debug, PartialEq, Eq)]
pub struct EventTold {
    pub item: u64,
    pub line: u64,
    pub command: u32,
    pub triangle: u32,
    pub depth_before: u32,
    pub depth_after: u32,
    pub color_before: [u8; 4],
    pub color_after: [u8; 4],
    pub stencil_before: u8,
    pub stencil_after: u8,
    pub stencil_passed: u8,
    pub depth_passed: u8,
    pub passed: u32,
}

/// An event as an area has it.
fn event_told(named: &NamedEvent) -> EventTold
    ensures { result ≡ event_told named.now }
{
    let event = named.event;
    let color_before = event.before.rgba;
    let color_after = event.after.rgba;
    EventTold {
        item: event.item,
        line: named.line,
        command: named.place.command,
        triangle: named.place.triangle,
        depth_before: event.before.ds.depth,
        depth_after: event.after.ds.depth,
        color_before,
        color_after,
        stencil_before: event.before.ds.stencil,
        stencil_after: event.after.ds.stencil,
        stencil_passed: u8::from(event.stencil_passed),
        depth_passed: u8::from(event.depth_passed),
        passed: u32::from(event.passed),
    }
}

/// Writes events to the front of an area that has room for them.
pub fn fill_events(area: &mut [EventTold], events: &[NamedEvent])
    requires { length events.now ≤ length area.old }
    ensures { area.new ≡ events_filled area.old events.now }
{
    for number in 0..events.len() {
        area[number] = event_told(&events[number]);
    }
}
