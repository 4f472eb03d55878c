//! The numbers of refusals, and printed texts.

use gfxspec::{Broken, GatherError, GfxError};
use std::alloc::Global;
use std::fmt::Display;
use std::test::Fail;

#[test]
fn refusals_have_their_numbers(rt: HostRuntime) {
    for (error, number) in [
        (GfxError::OutOfMemory, 1),
        (GfxError::TargetSize, 2),
        (GfxError::VertexRange, 3),
        (GfxError::VertexCount, 4),
        (GfxError::DrawRange, 5),
        (GfxError::IndexRange, 6),
        (GfxError::TopologyUnset, 7),
        (GfxError::ScissorRect, 8),
        (GfxError::QueryOpen, 9),
        (GfxError::QueryNotOpen, 10),
        (GfxError::QueryNumber, 11),
        (GfxError::QueryLeftOpen, 12),
        (GfxError::ListTooLong, 13),
        (GfxError::TooManyIssues, 14),
        (GfxError::PixelRange, 15),
        (GfxError::WorkerCount, 16),
        (GfxError::NotIssued, 17),
        (GfxError::Unfinished, 18),
        (GfxError::PortFull, 19),
        (GfxError::PredicateInList, 20),
    ] {
        assert!(rt; error.number() == number, "{error}");
    }
}

/// Whether a value prints as a text.
fn prints<T: Display>(alloc: Global, value: &T, text: &str) -> Result<bool, Fail> {
    Ok(format!(in alloc; "{value}")?.as_str() == text)
}

#[test]
fn texts_say_the_limits(rt: HostRuntime) -> Result<(), Fail> {
    for (error, text) in [
        (GfxError::OutOfMemory, "out of memory"),
        (
            GfxError::TargetSize,
            "a side of the target is 0 or above 4096",
        ),
        (GfxError::VertexCount, "more than 65536 vertices or indices"),
        (GfxError::WorkerCount, "more than 15 workers"),
    ] {
        assert!(rt; prints(rt.alloc(), &error, text)?);
    }
    assert!(rt; prints(rt.alloc(), &GatherError::Memory, "out of memory")?);
    assert!(rt; prints(rt.alloc(), &Broken, "the device failed")?);
    Ok(())
}
