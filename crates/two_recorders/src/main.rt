//! A picture by calls, without a script: two recorders in threads of their own record lists and send them by ports to the
//! caller, which executes them with a crew of workers beside it, and then asks for counts, pixels and planes.
//!
//! Each recorder has a half of the target, by its scissor rectangle, and queries of its own, so what comes out is the same
//! whichever lists come first. What is asked is printed as answer lines. data/picture.txt spells the same calls as a
//! script; `stdout` has the answers of tools/plain_device.py to it, and python/tests/test_two_recorders.py holds it to that.
//! The exit status is 1 where a call is refused or the answers can't be written.
#![tactic(auto)]

mod execute;
mod figures;
mod record;
mod tell;

use crate::execute::draw_lists;
use crate::figures::{HEIGHT, WIDTH, backdrop};
use crate::tell::tell_all;
use device::{DeviceContext, GfxError, ImmediateContext, Topology};
use std::alloc::Global;
use std::io;
use std::io::Write;
use std::process::ExitCode;
use std::sync::Wait;
use std::thread::Threads;

fn main(rt: HostRuntime) -> ExitCode {
    match picture(&rt, rt.alloc()) {
        Ok(text) => match io::writer(&rt).write_all(text.as_slice()) {
            Ok(()) => ExitCode::SUCCESS,
            Err(_) => ExitCode::from(1),
        },
        Err(refusal) => {
            let _ = rt.eprintln(refusal);
            ExitCode::from(1)
        }
    }
}

/// Draws the picture, and gives the answer lines of what it asks of it.
fn picture<R: Threads + Wait + Sync>(rt: &R, alloc: Global) -> Result<Vec<u8>, GfxError> {
    let mut device = ImmediateContext::new(alloc, WIDTH, HEIGHT)?;
    clear(&mut device)?;
    draw_lists(rt, alloc, &mut device)?;
    tell_all(alloc, &mut device)
}

/// Clears the target, and draws what stands behind both halves.
fn clear(device: &mut ImmediateContext<Global>) -> Result<(), GfxError> {
    device.clear_color([24, 28, 40, 255])?;
    device.clear_depth_stencil(16_000_000, 1)?;
    device.ia_set_vertices(&backdrop())?;
    device.ia_set_topology(Topology::TriangleList)?;
    device.begin(20)?;
    device.draw(3, 0)?;
    device.end(20)
}
