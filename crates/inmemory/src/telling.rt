//! The history of a pixel into an area of memory.

ghost use Rattle.std.specs.Prelude.{◌≡◌};
ghost use Rattle.inmemory.specs.Histories.{TellsHistory, end_of};

use pixelevents::{EventTold, fill_events};
use sessions::NoHistory;
use std::alloc::Allocator;

/// How the telling of a history ended.
#[derive(Clone, Copy, Debug, PartialEq, Eq)]
pub enum HistoryEnd {
    /// All events stand in their area.
    Done,
    /// A line of the script was refused or has a fault. The area is as it was.
    Refused { line: u64, number: u32 },
    /// The events don't fit into their area, which is as it was.
    EventsTooSmall,
    /// The target has no such pixel. The area is as it was.
    PixelRange,
}

/// How the telling of a history ended, and how many events the pixel has.
#[derive(Clone, Copy, Debug, PartialEq, Eq)]
pub struct HistoryReport {
    pub count: u64,
    pub end: HistoryEnd,
}

/// Why there is no history.
fn end_of(why: NoHistory) -> HistoryEnd
    ensures { result ≡ end_of why }
{
    match why {
        NoHistory::Refused { line, number } => HistoryEnd::Refused { line, number },
        NoHistory::PixelRange => HistoryEnd::PixelRange,
    }
}

/// The history of a pixel over a script: its events go to the front of an area. Where they don't fit, or there is no
/// history, the area stays as it was.
pub fn history<A: Allocator + Copy + Send>(
    alloc: A,
    script: &[u8],
    x: u32,
    y: u32,
    area: &mut [EventTold],
) -> HistoryReport
    ensures { TellsHistory script.now x y area.old area.new result }
{
    let events = match sessions::history(alloc, script, x, y) {
        Ok(events) => events,
        Err(why) => {
            return HistoryReport {
                count: 0,
                end: end_of(why),
            };
        }
    };
    let count = events.len() as u64;
    if area.len() < events.len() {
        return HistoryReport {
            count,
            end: HistoryEnd::EventsTooSmall,
        };
    }
    fill_events(area, events.as_slice());
    HistoryReport {
        count,
        end: HistoryEnd::Done,
    }
}
