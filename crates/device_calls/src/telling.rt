//! The history of a pixel, into the caller's memory.

ghost use Rattle.std.specs.Prelude.{◌≡◌, false, is_none, IfSome, OnOk, OnErr, length, nat_le, if◌then◌else◌};
ghost use Rattle.gfxspec.specs.Recorded.{queries_open};
ghost use Rattle.gfxspec.specs.Refusals.{pixel_rows};
ghost use Rattle.pixelevents.specs.Named.{events_filled};
ghost use Rattle.immediate.specs.Histories.{Asks};
ghost use Rattle.device_calls.specs.Answers.{answer_of, ByHandle};
ghost use Rattle.device_calls.specs.Telling.{TellsHistory};

use handles::DeviceHandle;
use pixelevents::{EventTold, NamedEvent, fill_events};
use std::alloc::Global;

/// Writes events to the front of an area, where it has room for all.
fn fill_if_all_fit(area: &mut [EventTold], events: &[NamedEvent])
    ensures { area.new ≡ (if nat_le (length events.now) (length area.old) then events_filled area.old events.now else area.old) }
{
    if events.len() <= area.len() {
        fill_events(area, events);
    }
}

/// The history of a pixel under the pending commands, which run none: how many events it has, and where there is room for all, these at
/// the front of an area, which else is as it was. Refused with PixelRange, QueryOpen, OutOfMemory, and then nothing is told.
#[unsafe(no_mangle)]
pub extern "C" fn yz_handle_device_history(
    alloc: Global,
    device: &mut DeviceHandle,
    x: u32,
    y: u32,
    events: &mut [EventTold],
    count: &mut u64,
) -> u32
    requires { is_none device.old.value ≡ false }
    ensures asked { ByHandle device.old.value device.new.value (λ old new. Asks (pixel_rows old.surface.size (queries_open old.pending) x y) old new (answer_of result)) }
    ensures told { OnOk (answer_of result) (IfSome device.old.value (λ old. TellsHistory old x y events.old events.new count.new)) }
    ensures untold { OnErr (answer_of result) (count.new ≡ count.old) }
    ensures same { OnErr (answer_of result) (events.new ≡ events.old) }
{
    let mut context = device.take(alloc);
    let asked = context.history_alone(x, y);
    device.put(context);
    match asked {
        Ok(history) => {
            *count = history.len() as u64;
            fill_if_all_fit(events, history.as_slice());
            0
        }
        Err(refusal) => refusal.number(),
    }
}
