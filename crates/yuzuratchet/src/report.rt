//! What a call tells, as C reads it.

ghost use Rattle.std.specs.Prelude.{◌≡◌};
ghost use Rattle.yuzuratchet.specs.Telling.{told, status_number, refused_line, refusal, history_told, history_status, history_line, history_refusal};

use inmemory::{HistoryEnd, Status};

/// What a call tells: sizes in bytes, the refused line and the number of its refusal, and the status.
#[repr(C)]
#[derive(Clone, Copy)]
pub struct Report {
    pub lines_size: u64,
    pub image_size: u64,
    pub refused_line: u64,
    pub refusal: u32,
    pub status: u32,
}

/// The number of a status.
fn status_number(status: Status) -> u32
    ensures { result ≡ status_number status }
{
    match status {
        Status::Done => 0,
        Status::Refused { .. } => 1,
        Status::LinesTooSmall => 2,
        Status::ImageTooSmall => 3,
        Status::NoMemory => 4,
    }
}

/// The refused line, or 0.
fn refused_line(status: Status) -> u64
    ensures { result ≡ refused_line status }
{
    match status {
        Status::Refused { line, .. } => line,
        _ => 0,
    }
}

/// The number of the refusal, or 0.
fn refusal(status: Status) -> u32
    ensures { result ≡ refusal status }
{
    match status {
        Status::Refused { number, .. } => number,
        _ => 0,
    }
}

/// A report as C reads it.
pub(crate) fn told(report: inmemory::Report) -> Report
    ensures { result ≡ told report }
{
    Report {
        lines_size: report.lines,
        image_size: report.image,
        refused_line: refused_line(report.status),
        refusal: refusal(report.status),
        status: status_number(report.status),
    }
}

/// What the telling of a history tells: how many events the pixel has, the refused line and the number of its refusal, and
/// the status.
#[repr(C)]
#[derive(Clone, Copy)]
pub struct HistoryReport {
    pub count: u64,
    pub refused_line: u64,
    pub refusal: u32,
    pub status: u32,
}

/// The number of the status of a history.
fn history_status(end: HistoryEnd) -> u32
    ensures { result ≡ history_status end }
{
    match end {
        HistoryEnd::Done => 0,
        HistoryEnd::Refused { .. } => 1,
        HistoryEnd::EventsTooSmall => 10,
        HistoryEnd::PixelRange => 11,
    }
}

/// The refused line of a history, or 0.
fn history_line(end: HistoryEnd) -> u64
    ensures { result ≡ history_line end }
{
    match end {
        HistoryEnd::Refused { line, .. } => line,
        _ => 0,
    }
}

/// The number of the refusal of a history, or 0.
fn history_refusal(end: HistoryEnd) -> u32
    ensures { result ≡ history_refusal end }
{
    match end {
        HistoryEnd::Refused { number, .. } => number,
        _ => 0,
    }
}

/// A report of a history as C reads it.
pub(crate) fn history_told(report: inmemory::HistoryReport) -> HistoryReport
    ensures { result ≡ history_told report }
{
    HistoryReport {
        count: report.count,
        refused_line: history_line(report.end),
        refusal: history_refusal(report.end),
        status: history_status(report.end),
    }
}
