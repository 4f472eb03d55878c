//! Drawing into areas of memory.

ghost use Rattle.std.specs.Prelude.{◌≡◌, ◌≤◌, length};
ghost use Rattle.inmemory.specs.Areas.{Drew, Sized, filled, output_of, measured, status_of};

use crate::play::{Played, play};
use sessions::Ended;
use std::alloc::Allocator;

/// How a drawing ended.
#[derive(Clone, Copy, Debug, PartialEq, Eq)]
pub enum Status {
    /// All lines were taken; the answer lines and the image stand in their areas.
    Done,
    /// A line was refused or has a fault: the answers of earlier lines and its `refused` line stand in the area for lines.
    Refused { line: u64, number: u32 },
    /// The answer lines don't fit into their area. Both areas are as they were.
    LinesTooSmall,
    /// The image doesn't fit into its area. Both areas are as they were.
    ImageTooSmall,
    /// Memory for the answer lines or the image was refused. Both areas are as they were.
    NoMemory,
}

/// How a drawing ended, and how many bytes its answer lines and its image have.
#[derive(Clone, Copy, Debug, PartialEq, Eq)]
pub struct Report {
    pub lines: u64,
    pub image: u64,
    pub status: Status,
}

/// Where there was no memory to keep what a session writes.
const NO_MEMORY: Report = Report {
    lines: 0,
    image: 0,
    status: Status::NoMemory,
};

/// The status of a session that ended.
fn status_of(ended: Ended) -> Status
    ensures { result ≡ status_of ended }
{
    match ended {
        Ended::Done => Status::Done,
        Ended::Refused { line, number } => Status::Refused { line, number },
    }
}

/// The sizes of what a session wrote, with a status.
fn measured<A: Allocator>(played: &Played<A>, status: Status) -> Report
    ensures { result ≡ measured (output_of played.now.lines.items played.now.image.items played.now.ended) status }
{
    Report {
        lines: played.lines.len() as u64,
        image: played.image.len() as u64,
        status,
    }
}

/// Writes bytes to the front of an area that has room for them.
fn fill(area: &mut [u8], bytes: &[u8])
    requires { length bytes.now ≤ length area.old }
    ensures { area.new ≡ filled area.old bytes.now }
{
    area[..bytes.len()].copy_from_slice(bytes);
}

/// Draws a script: its answer lines go to the front of one area, and its image to the front of the other. Where one of them
/// doesn't fit, or memory is refused, both areas stay as they were.
pub fn draw<A: Allocator + Copy + Send>(
    alloc: A,
    script: &[u8],
    lines: &mut [u8],
    image: &mut [u8],
) -> Report
    ensures { Drew script.now lines.old lines.new image.old image.new result }
{
    let Some(played) = play(alloc, script) else {
        return NO_MEMORY;
    };
    if lines.len() < played.lines.len() {
        return measured(&played, Status::LinesTooSmall);
    }
    if image.len() < played.image.len() {
        return measured(&played, Status::ImageTooSmall);
    }
    fill(lines, played.lines.as_slice());
    fill(image, played.image.as_slice());
    measured(&played, status_of(played.ended))
}

/// How a script ends, and how many bytes its answer lines and its image have.
pub fn sizes<A: Allocator + Copy + Send>(alloc: A, script: &[u8]) -> Report
    ensures { Sized script.now result }
{
    match play(alloc, script) {
        Some(played) => measured(&played, status_of(played.ended)),
        None => NO_MEMORY,
    }
}
